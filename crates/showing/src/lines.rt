//! Texts one behind another.
ghost use Rattle.std.specs.Prelude.{◌≡◌, ℕ, ◌++◌, ◌<◌, List, IfOk, OnOk, string_bytes};
ghost use Rattle.showing.specs.Lines.{lines};

use std::alloc::AllocError;

/// Puts the texts of the numbers below the count behind what is there.
pub(crate) fn put_lines<F: Fn(usize) -> Result<String, AllocError>>(
    out: &mut String,
    count: usize,
    line: F,
) -> Result<(), AllocError>
    requires { (k : ℕ) → k < count → F.pre line k }
    ensures { (text : ℕ → List ℕ) → ((k : ℕ) (r : _) → k < count → F.post line k r → IfOk r (λ s. string_bytes s ≡ text k)) → OnOk result (string_bytes out.new ≡ string_bytes out.old ++ lines text count) }
{
    for k in 0..count {
        out.push_str(line(k)?.as_str())?;
    }
    Ok(())
}
