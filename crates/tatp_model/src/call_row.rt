//! Rows of the call forwarding table.

/// A call forwarding. Its key is `s_id`, `sf_type` and `start_time`.
#[derive(Clone, Copy)]
pub struct CallRow {
    /// The subscriber whose facility it belongs to.
    pub s_id: u64,
    /// From 1 to 4.
    pub sf_type: u64,
    /// The hour from which it holds: 0, 8 or 16.
    pub start_time: u64,
    /// The hour before which it holds, from 1 to 24.
    pub end_time: u64,
    /// The phone number that calls go to, below 10^15.
    pub numberx: u64,
}

impl CallRow {
    ghost use Rattle.std.specs.Prelude.{◌≡◌};
    ghost use Rattle.tatp_model.specs.Database.{call_key, IsCallRow};
    ghost use Rattle.tatp_model.specs.Transaction.{forwards};

    /// The number by which call rows rise in their table.
    pub fn key(&self) -> u64
        requires { IsCallRow self.now }
        ensures { result ≡ call_key self.now }
    {
        3 * (4 * self.s_id + self.sf_type - 1) + self.start_time / 8
    }

    /// Whether the facility's calls from `start_time` to `end_time` are
    /// forwarded by this row.
    pub fn forwards(&self, s_id: u64, sf_type: u64, start_time: u64, end_time: u64) -> bool
        ensures { result ≡ forwards s_id sf_type start_time end_time self.now }
    {
        self.s_id == s_id
            && self.sf_type == sf_type
            && self.start_time <= start_time
            && end_time < self.end_time
    }
}
