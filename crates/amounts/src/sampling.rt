//! How many samples a length of pipe takes.
ghost use Rattle.std.specs.Prelude.{◌≡◌, IfOk};
ghost use Rattle.std.specs.Result.{result_err};
ghost use Rattle.faults.specs.Reasons.{FirstReason};
ghost use Rattle.faults.specs.declared.Layer.TheVariants as layer;
ghost use Rattle.amounts.specs.Sampling.{length_fits, rate_fits, samples_of, Covers, sampling_reasons};

use faults::{Fault, in_range};

/// The longest section, in millimetres.
pub const LONGEST: u64 = 8_000_000;

/// Whether a length is at most the longest.
pub fn length_fits(length: u64) -> bool
    ensures { result ≡ length_fits length }
{
    length <= LONGEST
}

/// Whether a rate is one of the loggers' two.
pub fn rate_fits(rate: u64) -> bool
    ensures { result ≡ rate_fits rate }
{
    rate == 512 || rate == 256
}

/// The samples in a length in millimetres, at a rate per metre, rounded up.
pub fn samples_of(length: u64, rate: u64) -> Result<u32, Fault>
    ensures exact { result ≡ samples_of length rate }
    ensures covers { IfOk result (Covers length rate) }
    ensures reasons { FirstReason layer.Network (sampling_reasons length rate) (result_err result) }
{
    in_range(0, length_fits(length))?;
    in_range(1, rate_fits(rate))?;
    Ok((length * rate).div_ceil(1000) as u32)
}
