// The two calls: a transfer is started with a location, then packets are given to it.
ghost use Rattle.std.specs.Prelude.{◌≡◌};
ghost use Rattle.transfer.specs.Transfer.{refused_with, start_of, Takes};

use crate::judging::judge;
use crate::state::Transfer;
use refusals::Refusal;

// The transfer after a call, and what the call answers.
#[derive(Clone, Copy)]
pub struct Outcome {
    pub transfer: Transfer,
    pub answer: Result<(), Refusal>,
}

// Starts a transfer of the file at `location`: refusal 20 for a location that is not valid, with a
// transfer that takes nothing.
#[tactic(auto, unfolding(crate::specs::Transfer::start_of))]
pub fn start(location: &[u8]) -> Outcome
    ensures { result ≡ start_of location.now }
{
    if !packet::valid_location(location) {
        return refused(Transfer::fresh(b""), Refusal::BadFragment);
    }
    Outcome {
        transfer: Transfer::fresh(location),
        answer: Ok(()),
    }
}

// Gives a packet to the transfer. The bytes of an accepted fragment are written into `file` at its
// offset; a refusal changes nothing.
#[tactic(auto, using(crate::proofs::JudgeLaws::takes_nothing, crate::proofs::StepLaws::verdict_told))]
pub fn take(transfer: Transfer, packet: &[u8], file: &mut [u8]) -> Outcome
    ensures { Takes transfer packet.now file.old file.new result }
{
    match judge(transfer, packet, file.len()) {
        Ok(fragment) => {
            let bytes = packet::value_at(packet, fragment.binary);
            slices::put(file, fragment.offset, bytes);
            Outcome {
                transfer: transfer.advanced(fragment.next, fragment.declared, fragment.last),
                answer: Ok(()),
            }
        }
        Err(refusal) => refused(transfer, refusal),
    }
}

fn refused(transfer: Transfer, refusal: Refusal) -> Outcome
    ensures { result ≡ refused_with transfer refusal }
{
    Outcome {
        transfer,
        answer: Err(refusal),
    }
}
