// The words of `out`, in which a call tells more than its number.
ghost use Rattle.std.specs.Prelude.{◌≡◌};
ghost use Rattle.exports.specs.Out.{told_in};

// Nothing is written where there is no room for all.
#[tactic(auto, unfolding(crate::specs::Out::told_in))]
pub(crate) fn put_told<const N: usize>(out: &mut [u64], told: [u64; N])
    ensures { out.new ≡ told_in told.entry out.old }
{
    if let Some(front) = out.first_chunk_mut() {
        *front = told;
    }
}
