// What the tests of a net's calls ask.
use net::Net;
use net_laws::{Fault, Layer};
use space::Space;
use std::process::Abort;
use std::test::Fail;

// Whether the answer is the refusal of this number; the first two are the space's.
pub(crate) fn check_refused<T: Drop>(
    rt: &impl Abort,
    answer: Result<T, Fault>,
    number: u8,
) -> Result<(), Fail> {
    match answer {
        Ok(_) => Err(Fail::new("answered")),
        Err(fault) => {
            assert_eq!(rt; fault.number(), number);
            assert_eq!(rt; fault.layer() == Layer::Space, number <= 2);
            Ok(())
        }
    }
}

fn mixed(sum: u64, n: u64) -> u64 {
    (sum ^ n).wrapping_mul(1_099_511_628_211)
}

// A number that every answer of `row`, `path` and `worst` goes into.
pub(crate) fn print_of<S: Space>(net: &Net<S>) -> u64 {
    let mut sum = 0;
    for k in 0..800 {
        if let Ok(row) = net.row(k) {
            sum = mixed(mixed(sum, row.parent as u64), row.length);
            sum = mixed(sum, u64::from(row.spot.x.unsigned_abs()));
            sum = mixed(sum, u64::from(row.spot.y.unsigned_abs()));
        }
        if let Ok(reach) = net.path(k) {
            sum = mixed(mixed(sum, reach.path), reach.direct);
        }
    }
    if let Ok(worst) = net.worst() {
        sum = mixed(mixed(sum, worst.pin as u64), worst.figure);
    }
    sum
}
