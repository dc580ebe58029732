// The leaves of `acquisition` and of `scaling`: floats, and one float out.
use crate::reply::{Reply, Results, floats, put_float};

pub(crate) fn norm_pdf(args: &[u64], results: &mut Results) -> Reply {
    let [x]: [f64; 1] = floats(args)?;
    put_float(acquisition::norm_pdf(x), results)
}

pub(crate) fn norm_cdf(args: &[u64], results: &mut Results) -> Reply {
    let [x]: [f64; 1] = floats(args)?;
    put_float(acquisition::norm_cdf(x), results)
}

pub(crate) fn expected_improvement(args: &[u64], results: &mut Results) -> Reply {
    let [mean, std, f_best]: [f64; 3] = floats(args)?;
    put_float(
        acquisition::expected_improvement(mean, std, f_best),
        results,
    )
}

pub(crate) fn to_normalized(args: &[u64], results: &mut Results) -> Reply {
    let [value, lo, hi]: [f64; 3] = floats(args)?;
    put_float(scaling::to_normalized(value, lo, hi), results)
}

pub(crate) fn from_normalized(args: &[u64], results: &mut Results) -> Reply {
    let [value, lo, hi]: [f64; 3] = floats(args)?;
    put_float(scaling::from_normalized(value, lo, hi), results)
}
