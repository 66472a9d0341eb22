// Small arithmetic that several rooms share: each function is one definition of terms/specs/Numbers.antt, by a method of the language.

#![tactic(auto)]

ghost use Rattle.std.specs.Prelude.{◌≡◌, ◌+◌, ◌-◌, ◌≤◌};
ghost use Rattle.rules.specs.Width.{Word};
ghost use Rattle.terms.specs.Numbers.{round_up, outside};

// Whether x lies outside lo to hi.
pub fn is_outside(lo: u64, hi: u64, x: u64) -> bool
    ensures { result ≡ outside lo hi x }
{
    !(lo..=hi).contains(&x)
}

// x / d, rounded up.
pub fn round_up(x: u64, d: u64) -> u64
    requires { (1 ≤ d) × Word (x + (d - 1)) }
    ensures { result ≡ round_up x d }
{
    x.div_ceil(d)
}
