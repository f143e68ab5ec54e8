// The literature's model of runs, as definitions, and the proof that it is ours. There is no code here: the table of
// samples, which has the literature's plans, promises what is proved (`samples` of the crate of that name).
#![tactic(auto)]
