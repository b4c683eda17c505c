// The system's clock.

use zy_edge::{Clock, RealClock};

#[test]
fn the_clock_has_begun(rt: HostRuntime) {
    let moment = RealClock::new(&rt).now_ms();
    assert!(rt; moment > 0);
}

#[test]
fn the_clock_does_not_go_back(rt: HostRuntime) {
    let mut clock = RealClock::new(&rt);
    let first = clock.now_ms();
    let second = clock.now_ms();
    assert!(rt; first <= second);
}
