ghost use Rattle.std.specs.Prelude.{◌≡◌, ◌≤◌, [], length, IfErr, IfOk, OnErr, Ok, Err};
ghost use Rattle.net_laws.specs.States.{fresh};
ghost use Rattle.request.specs.declared.requests.Request.TheVariants as asks;
ghost use Rattle.reply.specs.Texts.{table_text};
ghost use Rattle.reply.specs.declared.reply.Reply.TheVariants.{Number};
ghost use Rattle.job.specs.Answering.{net_of};
ghost use Rattle.job.specs.Jobs.{AsksNet, Begun, JobRan};
ghost use Rattle.job.specs.Stages.Stage.{before, over, without};
ghost use Rattle.job.specs.Stages.{Follows, joins_of, geometry_of};

use crate::answering::{Answerer, NoNet, OverNet};
use crate::kind::JobCall;
use crate::places::put;
use crate::running::{Outcome, run_lines};
use built_spaces::{Air, Lift, Plane};
use net::Net;
use net_laws::{Call, JoinCall};
use reply::{Reply, last_line};
use request::{Request, TextFault, Word, next_line, read};
use space::Space;
use std::alloc::{AllocError, Global};
use std::marker::PhantomData;

/// Answers line 1 by one line, and then the rest of the job.
fn run_behind<A: Answerer + Drop>(
    mut answerer: A,
    answer: Result<Reply, TextFault>,
    rest: &[u8],
    out: &mut [u8],
) -> Outcome
    requires { table_text (net_of (A.stage answerer)) answer ≡ [] }
    ensures { Begun (A.stage answerer) answer rest.now out.old out.new result }
{
    let text = last_line(1, answer);
    let Some(end) = put(out, 0, text.as_bytes()) else {
        return Outcome {
            lines: 0,
            bytes: 0,
            stopped: true,
        };
    };
    let ran = run_lines(&mut answerer, rest, &mut out[end..]);
    Outcome {
        lines: 1 + ran.lines,
        bytes: end + ran.bytes,
        stopped: ran.stopped,
    }
}

/// Answers line 1, which makes a net in the space, and then the rest of the job over that net.
fn run_over<S: Space + Drop, C: JobCall<S>>(
    heap: Global,
    space: S,
    rest: &[u8],
    out: &mut [u8],
) -> Result<Outcome, AllocError>
    ensures begun { IfOk result (λ o.
        Begun (over (C.NetCall.geometry space) C.JobCall.joins fresh) (Ok (Number 0)) rest.now out.old out.new o) }
    ensures err { OnErr result (out.new ≡ out.old) }
{
    let net = Net::new(heap, space)?;
    let answerer = OverNet::<S, C> {
        net,
        calls: PhantomData,
    };
    Ok(run_behind(answerer, Ok(Reply::Number(0)), rest, out))
}

/// Answers line 1, a W, and then the rest of the job.
fn run_in(
    heap: Global,
    word: Word,
    price: Option<u32>,
    rest: &[u8],
    out: &mut [u8],
) -> Result<Outcome, AllocError>
    ensures begun { IfOk result (λ o.
        Begun (over (geometry_of word price) (joins_of word) fresh) (Ok (Number 0)) rest.now out.old out.new o) }
    ensures err { OnErr result (out.new ≡ out.old) }
{
    match (word, price) {
        (Word::Plane, None) => run_over::<Plane, JoinCall>(heap, Plane, rest, out),
        (Word::Plane, Some(price)) => {
            let lift = Lift {
                below: Plane,
                price,
            };
            run_over::<Lift<Plane>, JoinCall>(heap, lift, rest, out)
        }
        (Word::Air, None) => run_over::<Air, Call>(heap, Air, rest, out),
        (Word::Air, Some(price)) => {
            let lift = Lift { below: Air, price };
            run_over::<Lift<Air>, Call>(heap, lift, rest, out)
        }
    }
}

/// The space that line 1 asks for; the refusal of line 1 where it asks for none.
fn opening(asked: Result<Request, TextFault>) -> Result<(Word, Option<u32>), TextFault>
    ensures ok { IfOk result (λ s. asked ≡ Ok (asks.Space s.0 s.1)) }
    ensures err { IfErr result (λ e. Follows asked before without (Err e)) }
{
    match asked? {
        Request::Space(word, price) => Ok((word, price)),
        _ => Err(TextFault::OutOfPlace),
    }
}

/// Answers the lines of a job, up to the first whose whole answer does not fit; fails, with nothing written, where there is no memory for the net.
/// Memory is wanted once, for a net of full size, and given back at the end. What lies behind the bytes that were written stays.
pub fn run(heap: Global, job: &[u8], out: &mut [u8]) -> Result<Outcome, AllocError>
    ensures ran { IfOk result (λ o. JobRan job.now out.old out.new o) }
    ensures room { IfOk result (λ o. o.bytes ≤ length out.old) }
    ensures err { OnErr result (out.new ≡ out.old) }
    ensures memory { OnErr result (AsksNet job.now) }
{
    let Some((line, rest)) = next_line(job) else {
        return Ok(Outcome {
            lines: 0,
            bytes: 0,
            stopped: false,
        });
    };
    match opening(read(line)) {
        Ok((word, price)) => run_in(heap, word, price, rest, out),
        Err(fault) => Ok(run_behind(NoNet, Err(fault), rest, out)),
    }
}
