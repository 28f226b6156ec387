// Lookup of a satellite in 52h data.
#![tactic(auto)]

ghost use Rattle.std.specs.Prelude.{◌≡◌};
ghost use Rattle.refusals.specs.Numbers.{numbered};
ghost use Rattle.lookup.specs.Lookup.{found_in};

use refusals::Refusal;

// The index of the first entry of 52h data that has both the system and the number, if any has.
pub fn find_satellite(body: &[u8], system: u8, number: u8) -> Result<Option<usize>, Refusal>
    ensures { numbered result ≡ found_in body.now system number }
{
    kinds::content(0x52, body)?;
    let first = body
        .chunks_exact(7)
        .position(|entry| entry[0] == system && entry[1] == number);
    Ok(first)
}
