//! Times to reload blocks, and the credit of ticks spent.

ghost use Rattle.std.specs.Prelude.{◌≡◌, ◌+◌, ◌*◌, ◌/◌, min};

/// The time to reload so many blocks, at `reload` ticks each.
pub(crate) fn reload_ticks(blocks: u8, reload: u8) -> u16
    ensures { result ≡ blocks * reload }
{
    u16::from(blocks) * u16::from(reload)
}

/// The time to reload so many blocks, but no more of them than `credit` ticks can have loaded.
pub(crate) fn loaded_ticks(blocks: u8, credit: u16, reload: u8) -> u16
    ensures { result ≡ min blocks (credit / reload) * reload }
{
    if reload == 0 {
        return 0;
    }
    let reload = u16::from(reload);
    u16::from(blocks).min(credit / reload) * reload
}

/// One tick more of credit, but no more than `most`.
pub(crate) fn credited(credit: u16, most: u16) -> u16
    ensures { result ≡ min (credit + 1) most }
{
    credit.saturating_add(1).min(most)
}
