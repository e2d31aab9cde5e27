// Checked arithmetic: an operation whose outcome is not finite gives nothing.
ghost use Rattle.std.specs.Prelude.{◌≡◌};
ghost use Rattle.reals.specs.Checked.{real, plus, minus, times, over};

#[tactic(auto, unfolding(crate::specs::Checked::real))]
fn if_finite(x: f32) -> Option<f32>
    ensures { result ≡ real x }
{
    if x.is_finite() { Some(x) } else { None }
}

/// x + y.
pub fn add(x: f32, y: f32) -> Option<f32>
    ensures { result ≡ plus x y }
{
    if_finite(x + y)
}

/// x − y.
pub fn sub(x: f32, y: f32) -> Option<f32>
    ensures { result ≡ minus x y }
{
    if_finite(x - y)
}

/// x × y.
pub fn mul(x: f32, y: f32) -> Option<f32>
    ensures { result ≡ times x y }
{
    if_finite(x * y)
}

/// x ÷ y.
pub fn div(x: f32, y: f32) -> Option<f32>
    ensures { result ≡ over x y }
{
    if_finite(x / y)
}
