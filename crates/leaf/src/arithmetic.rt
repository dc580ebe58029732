// The leaves of `exponential`, `logarithm`, `root` and `arith`: one float each.
use crate::reply::{Reply, Results, floats, put_float};

pub(crate) fn exp(args: &[u64], results: &mut Results) -> Reply {
    let [x]: [f64; 1] = floats(args)?;
    put_float(exponential::exp(x)?, results)
}

pub(crate) fn ln(args: &[u64], results: &mut Results) -> Reply {
    let [x]: [f64; 1] = floats(args)?;
    put_float(logarithm::ln(x)?, results)
}

pub(crate) fn sqrt(args: &[u64], results: &mut Results) -> Reply {
    let [x]: [f64; 1] = floats(args)?;
    put_float(root::sqrt(x), results)
}

pub(crate) fn round(args: &[u64], results: &mut Results) -> Reply {
    let [x]: [f64; 1] = floats(args)?;
    put_float(arith::round(x), results)
}

pub(crate) fn floor(args: &[u64], results: &mut Results) -> Reply {
    let [x]: [f64; 1] = floats(args)?;
    put_float(arith::floor(x), results)
}
