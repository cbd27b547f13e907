use ho_base::numbers::{AgentNo, Pfn};
use ho_base::shape::{Area, Shape};
use machine_core::{Kernel, PlainReach};

#[test]
fn a_cold_kernel_is_begun_and_given_up(rt: HostRuntime) {
    let area = Area {
        first: Pfn(1),
        count: 2,
    };
    let mut areas = Vec::new(rt.alloc());
    areas.push(area).expect(&rt, "memory");
    let shape = Shape::checked(32, areas).expect(&rt, "a shape");
    let kernel = Kernel::cold(rt.alloc(), shape).expect(&rt, "memory");
    let reach = PlainReach::new(rt.alloc(), kernel, AgentNo(1));
    let (kernel, log) = reach.log();
    assert_eq!(rt; log.len(), 0);
    let are_home = match kernel.give_up(Vec::new(rt.alloc())) {
        Ok(()) => true,
        Err(frames) => {
            frames.forget();
            false
        }
    };
    assert!(rt; are_home);
}
