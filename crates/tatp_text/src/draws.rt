//! The random words of a request.

ghost use Rattle.std.specs.Prelude.{◌≡◌, ◌<◌, ◌≤◌, ◌*◌, ◌^◌};
ghost use Rattle.tatp_model.specs.Ranges.{IsId};
ghost use Rattle.tatp_model.specs.Request.{IsInRange};
ghost use Rattle.tatp_text.specs.Draws.{after_draws, chosen, draws_of, subscriber_of};

use rand_core::utils::NextWord;
use rand_pcg::Lcg64Xsh32;
use tatp_model::Request;

/// The seven words that choose a request, in the order in which they are drawn.
#[derive(Clone, Copy)]
pub(crate) struct Draws {
    pub(crate) kind: u32,
    pub(crate) subscriber: u32,
    pub(crate) facility: u32,
    pub(crate) start: u32,
    pub(crate) end: u32,
    pub(crate) value: u32,
    pub(crate) number: u32,
}

impl Draws {
    /// The next seven words of the generator.
    pub(crate) fn take(generator: &mut Lcg64Xsh32) -> Draws
        ensures words { result ≡ draws_of generator.old }
        ensures after { generator.new ≡ after_draws generator.old }
    {
        let kind = generator.next_word();
        let subscriber = generator.next_word();
        let facility = generator.next_word();
        let start = generator.next_word();
        let end = generator.next_word();
        let value = generator.next_word();
        let number = generator.next_word();
        Draws {
            kind,
            subscriber,
            facility,
            start,
            end,
            value,
            number,
        }
    }

    /// The subscriber of a file that the words choose, where each file has `each`.
    pub(crate) fn subscriber_of(self, file: u64, files: u64, each: u64) -> u64
        requires one_of_files { file < files }
        requires some { 0 < each }
        requires fits { files * each < 2 ^ 64 }
        ensures value { result ≡ subscriber_of file files each self }
        ensures range { (1 ≤ result) × (result ≤ files * each) }
    {
        1 + file + files * (u64::from(self.subscriber) % each)
    }

    /// The request that the words choose, for this subscriber.
    pub(crate) fn request(self, s_id: u64) -> Request
        ensures value { result ≡ chosen s_id self }
        ensures range { IsId s_id → IsInRange result }
    {
        let sf_type = 1 + u64::from(self.facility % 4);
        let start_time = 8 * u64::from(self.start % 3);
        let end_time = 1 + u64::from(self.end % 24);
        match self.kind % 100 {
            0..35 => Request::GetSubscriber { s_id },
            35..45 => Request::GetDestination {
                s_id,
                sf_type,
                start_time,
                end_time,
            },
            45..80 => Request::GetAccess {
                s_id,
                ai_type: sf_type,
            },
            80..82 => Request::UpdateSubscriber {
                s_id,
                bit_1: u64::from(self.number % 2),
                sf_type,
                data_a: u64::from(self.value % 256),
            },
            82..96 => Request::UpdateLocation {
                sub_nbr: s_id,
                vlr: u64::from(self.value),
            },
            96..98 => Request::InsertCall {
                sub_nbr: s_id,
                sf_type,
                start_time,
                end_time,
                numberx: u64::from(self.number),
            },
            _ => Request::DeleteCall {
                sub_nbr: s_id,
                sf_type,
                start_time,
            },
        }
    }
}
