ghost use Rattle.std.specs.Prelude.{◌≡◌, ◌≤◌, ◌^◌, ◌≤ℤ◌, ◌*ℤ◌, pos};
ghost use Rattle.sdc_base.specs.declared.method.Method.TheVariants as method;
ghost use Rattle.job_lang.specs.JobLimits.{IsMethod};
ghost use Rattle.job_inputs.specs.Bases.{method_base};

use sdc_base::Method;

/// The base to which a method rounds, in units of so many decimals: as many as the job says, of the response's whole
/// numbers. Of a method that doesn't round it is 1, and nothing is to be made of it.
///
/// The method is one of a job, and decimals are at most 13; so a base is at most `10^22`. Nothing is refused. That a
/// job's base counts whole numbers of the response is argus's own.
pub fn base_in_units(method: Method, decimals: u8) -> i128
    requires method { IsMethod method }
    requires decimals { decimals ≤ 13 }
    ensures base { result ≡ method_base method decimals }
    ensures from_one { pos 1 ≤ℤ result }
    ensures at_most { result ≤ℤ pos (10 ^ 22) }
{
    match method {
        Method::Rnd(base) => in_units(base, units_in_one(decimals)),
        Method::Gh(_) => 1,
        Method::Modular => 1,
    }
}

// A base in whole numbers of the response, in units.
fn in_units(base: i128, units: u64) -> i128
    requires base { IsMethod (method.Rnd base) }
    requires from_one { 1 ≤ units }
    requires at_most_10_13 { units ≤ 10 ^ 13 }
    ensures { result ≡ base *ℤ pos units }
{
    base * i128::from(units)
}

// How many units one is.
fn units_in_one(decimals: u8) -> u64
    requires { decimals ≤ 13 }
    ensures exact { result ≡ 10 ^ decimals }
    ensures from_one { 1 ≤ result }
    ensures at_most { result ≤ 10 ^ 13 }
{
    10u64.pow(u32::from(decimals))
}
