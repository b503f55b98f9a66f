ghost use Rattle.std.specs.Prelude.{◌≡◌, ◌<◌, ◌^◌};
ghost use Rattle.pv_gen.specs.Sequence.{next_state, output_of};
ghost use Rattle.pv_gen.specs.declared.sequence.TheConstants.{MODULUS};

/// What a state is multiplied by.
pub(crate) const MULTIPLIER: u32 = 1_103_515_245;

/// What is added then.
pub(crate) const INCREMENT: u32 = 12_345;

/// All states but the first are below this.
pub(crate) const MODULUS: u32 = 1 << 31;

/// How many states in a row have one output.
pub(crate) const DIVISOR: u32 = 65_536;

/// The state after this one.
pub(crate) fn step(state: u32) -> u32
    ensures { result ≡ next_state state }
{
    let sum = MULTIPLIER as u64 * state as u64 + INCREMENT as u64;
    (sum % MODULUS as u64) as u32
}

/// The output of a state.
pub(crate) fn output(state: u32) -> u32
    ensures { result ≡ output_of state }
{
    state / DIVISOR
}
