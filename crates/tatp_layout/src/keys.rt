//! The keys of rows that belong to a subscriber or to a facility.

ghost use Rattle.std.specs.Prelude.{◌≡◌, ◌+◌, ◌-◌, ◌*◌};
ghost use Rattle.tatp_model.specs.Ranges.{IsId, IsKind};

/// The key of a subscriber's access row of this type, or of its facility.
pub fn kind_key(s_id: u64, kind: u64) -> u64
    requires id { IsId s_id }
    requires kind { IsKind kind }
    ensures { result ≡ 4 * s_id + kind - 1 }
{
    4 * s_id + kind - 1
}

/// The key of the facility's call row that starts at 0; those that start at 8 and at 16 have the next two.
pub fn first_call_key(s_id: u64, sf_type: u64) -> u64
    requires id { IsId s_id }
    requires kind { IsKind sf_type }
    ensures { result ≡ 3 * (4 * s_id + sf_type - 1) }
{
    3 * kind_key(s_id, sf_type)
}
