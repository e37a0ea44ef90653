use crate::intake::Intake;
use crate::requests::{Answer, Request};
use crate::run::Run;
use crate::slip::{Slip, Unfiled};
use store::Store;

/// An intake that was not sealed, since there was no room for the answers.
pub struct NoRoom<S: Store> {
    pub intake: Intake<S>,
}

impl<S: Store> Run<S> {
    ghost use Rattle.std.specs.Prelude.{◌≡◌};
    ghost use Rattle.model.specs.Calls.{call};
    ghost use Rattle.run.specs.Requests.{call_of, answer_of};
    ghost use Rattle.run.specs.Runs.{state};
    ghost use Rattle.table.specs.Settings.{Through};

    // Makes one call. A slip is made of the numbers and let go again, so that whatever numbers may stand in its place.
    fn call(&mut self, request: Request) -> Answer
        ensures next { state S.Store.cells self.new ≡ (call (state S.Store.cells self.old) (call_of request)).next }
        ensures answer { answer_of result ≡ (call (state S.Store.cells self.old) (call_of request)).answer }
        ensures loan { S.Store.loan self.new.store ≡ S.Store.loan self.old.store }
        ensures store { Through S.Store.sets (call (state S.Store.cells self.old) (call_of request)).events self.old.store self.new.store }
    {
        match request {
            Request::Turn { job } => Answer::OfTurn(self.turn(job)),
            Request::Settle => {
                self.settle();
                Answer::OfSettling
            }
            Request::Open => Answer::OfOpening(self.open_correction().map(Slip::discard)),
            Request::Read { slip, cell } => {
                let slip = Slip { numbers: slip };
                let answer = self.read(&slip, cell);
                let _ = slip.discard();
                Answer::OfReading(answer)
            }
            Request::Write { slip, cell, number } => {
                let slip = Slip { numbers: slip };
                let answer = self.write(&slip, cell, number);
                let _ = slip.discard();
                Answer::OfAcceptance(answer)
            }
            Request::File { slip } => match self.file(Slip { numbers: slip }) {
                Ok(()) => Answer::OfAcceptance(Ok(())),
                Err(Unfiled { slip, refusal }) => {
                    let _ = slip.discard();
                    Answer::OfAcceptance(Err(refusal))
                }
            },
            Request::Withdraw { slip } => {
                Answer::OfAcceptance(self.withdraw(Slip { numbers: slip }))
            }
        }
    }
}

ghost use Rattle.std.specs.Prelude.{◌≡◌, map, length, take, drop, nat_le, is_ok, IfOk, IfErr, OnOk, OnErr};
ghost use Rattle.model.specs.Calls.{after, answers_of, events_of};
ghost use Rattle.model.specs.Law.{LawAfter};
ghost use Rattle.run.specs.Requests.{calls_of, answer_of};
ghost use Rattle.run.specs.Runs.{begun, state};
ghost use Rattle.table.specs.Settings.{Through};

/// Seals the intake and makes the calls, one after another, with whatever numbers; the answers are put into the buffer, in
/// their order, and what lies beyond them stays. The law holds after exactly these calls. No slip comes back: a correction
/// that they leave open sets nothing. A buffer with fewer places than there are calls is refused, and nothing is done.
pub fn carry_out<S: Store>(
    intake: Intake<S>,
    requests: &[Request],
    answers: &mut [Answer],
) -> Result<Run<S>, NoRoom<S>>
    ensures carried { is_ok result ≡ nat_le (length requests.now) (length answers.old) }
    ensures after { IfOk result (λ run. state S.Store.cells run ≡ after (begun S.Store.cells intake) (calls_of requests.now)) }
    ensures answers { OnOk result (map answer_of (take (length requests.now) answers.new) ≡ answers_of (begun S.Store.cells intake) (calls_of requests.now)) }
    ensures beyond { OnOk result (drop (length requests.now) answers.new ≡ drop (length requests.now) answers.old) }
    ensures law { LawAfter (begun S.Store.cells intake) (calls_of requests.now) }
    ensures store { IfOk result (λ run. Through S.Store.sets (events_of (begun S.Store.cells intake) (calls_of requests.now)) intake.store run.store) }
    ensures loan { IfOk result (λ run. S.Store.loan run.store ≡ S.Store.loan intake.store) }
    ensures refused { IfErr result (λ none. none.intake ≡ intake) }
    ensures untouched { OnErr result (answers.new ≡ answers.old) }
{
    if answers.len() < requests.len() {
        return Err(NoRoom { intake });
    }
    let mut run = intake.seal();
    for (i, request) in requests.iter().enumerate() {
        answers[i] = run.call(*request);
    }
    Ok(run)
}
