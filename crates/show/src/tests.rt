// What is said of times that do not fit a run.
use checker::given::Misfit;
use std::test::Fail;

#[test]
fn a_time_that_does_not_fit_is_told_of(rt: HostRuntime) -> Result<(), Fail> {
    let heap = rt.alloc();
    let none_left = "no time is left for the start of handler 5";
    let ended = Misfit::Ended { number: 5 };
    let outside = Misfit::Outside {
        number: 64,
        time: 2000,
    };
    assert_eq!(rt; format!(in heap; "{ended}")?.as_str(), none_left);
    assert_eq!(rt;
        format!(in heap; "{outside}")?.as_str(),
        "handler 64 cannot take the time 2000"
    );
    Ok(())
}
