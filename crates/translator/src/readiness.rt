// Whether a transaction can be taken at all.
ghost use Rattle.std.specs.Prelude.{◌≡◌};
ghost use Rattle.translator.specs.Held.{held};
ghost use Rattle.translator.specs.Transact.{readiness_of};

use outcome::Outcome;
use state::{Beside, COLUMNS, ROW_COUNT, Setup};

// Whether the state of these numbers and the buffers can be used, or the outcome that says why not:
// the buffers are too short, or what is handed in is not sound.
pub(crate) fn readiness_of(
    rows: &[[u64; COLUMNS]; ROW_COUNT],
    beside: Beside,
    setup: Setup,
    store: &[u8],
    settings: &[u8],
) -> Result<(), Outcome>
    ensures { result ≡ readiness_of (held rows.now beside setup) store.now settings.now }
{
    if (store.len() as u64) < packet::MAX_PACKET {
        return Err(Outcome::NoRoom);
    }
    if settings.len() < settings::SIZE {
        return Err(Outcome::NoRoom);
    }
    if !state::are_sound(rows, beside, setup) {
        return Err(Outcome::NotSound);
    }
    if !settings::is_sound(settings) {
        return Err(Outcome::NotSound);
    }
    Ok(())
}
