ghost use Rattle.std.specs.Prelude.{◌≡◌};
ghost use Rattle.hv_clean.specs.Passing.{one_more, count_cleaned, count_held, count_forgotten, count_listed, count_fault};

/// What a pass of a cleaner did: how many jobs it noted as cleaned, how many were held by an open transaction, how many
/// write ids it noted as forgotten, of how many a directory was listed still, and how many of its calls on files
/// failed.
#[derive(Clone, Copy, Debug)]
pub struct Swept {
    pub cleaned: u64,
    pub held: u64,
    pub forgotten: u64,
    pub listed: u64,
    pub faults: u64,
}

/// Why a pass stopped.
#[derive(Clone, Copy, Debug)]
pub enum PassFault {
    /// The journal failed, or others closed the house.
    Store,
    /// There was no room for its own next entry: the book has so many.
    Full { entries: u64 },
    /// Memory lacked.
    NoMemory,
}

/// Nothing was done yet.
pub(crate) const NOTHING: Swept = Swept {
    cleaned: 0,
    held: 0,
    forgotten: 0,
    listed: 0,
    faults: 0,
};

/// One more of a count. A pass that counts further than numbers go stays at the last one.
fn one_more(count: u64) -> u64
    ensures { result ≡ one_more count }
{
    if count < u64::MAX { count + 1 } else { count }
}

pub(crate) fn count_cleaned(swept: Swept) -> Swept
    ensures { result ≡ count_cleaned swept }
{
    Swept {
        cleaned: one_more(swept.cleaned),
        ..swept
    }
}

pub(crate) fn count_held(swept: Swept) -> Swept
    ensures { result ≡ count_held swept }
{
    Swept {
        held: one_more(swept.held),
        ..swept
    }
}

pub(crate) fn count_forgotten(swept: Swept) -> Swept
    ensures { result ≡ count_forgotten swept }
{
    Swept {
        forgotten: one_more(swept.forgotten),
        ..swept
    }
}

pub(crate) fn count_listed(swept: Swept) -> Swept
    ensures { result ≡ count_listed swept }
{
    Swept {
        listed: one_more(swept.listed),
        ..swept
    }
}

pub(crate) fn count_fault(swept: Swept) -> Swept
    ensures { result ≡ count_fault swept }
{
    Swept {
        faults: one_more(swept.faults),
        ..swept
    }
}
