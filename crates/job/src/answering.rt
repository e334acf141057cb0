// What answers the lines of a job behind line 1: a net, or the refusal of line 1.
ghost use Rattle.std.specs.Prelude.{◌≡◌, ◌≤◌, length};
ghost use Rattle.job.specs.Jobs.{AnswersLine};
ghost use Rattle.job.specs.Stages.Stage.{over as overNet, without as withoutNet};
ghost use Rattle.job.specs.Stages.{Laws, NetFollows, Stage};

use crate::kind::JobCall;
use crate::places::put;
use crate::tabling::put_answer;
use net::Net;
use reply::{Reply, last_line};
use request::{Request, TextFault, read};
use space::Space;
use std::marker::PhantomData;

/// Answers the lines of a job, one after the other.
pub(crate) trait Answerer {
    // What stands when a line is read.
    ghost stage: { Self → Stage };

    /// Answers a line, and puts its answer at a place; the place behind it, or nothing where it does not fit.
    fn answer_at(&mut self, number: u64, line: &[u8], out: &mut [u8], at: usize) -> Option<usize>
        requires { at ≤ length out.old }
        ensures { AnswersLine line.now number (stage self.old) (stage self.new) out.old at result out.new };

    ghost laws: { (a : Self) → Laws (stage a) };
}

/// A net, and which of the calls of a job it has.
#[derive(Drop)]
pub(crate) struct OverNet<S: Space, C: JobCall<S>> {
    /// The net that the lines change.
    pub net: Net<S>,
    /// Which calls it has; takes no room.
    pub calls: PhantomData<C>,
}

/// Line 1 was refused, so there is no net.
#[derive(Clone, Copy)]
pub(crate) struct NoNet;

/// What the net answers to what a line asks.
fn answer<S: Space, C: JobCall<S>>(
    net: &mut Net<S>,
    asked: Result<Request, TextFault>,
) -> Result<Reply, TextFault>
    ensures gives { NetFollows (C.NetCall.geometry net.old.space) C.JobCall.joins asked net.old.state net.new.state result }
    ensures stays { net.new.space ≡ net.old.space }
{
    match asked? {
        Request::Space(_, _) => Err(TextFault::OutOfPlace),
        Request::Change(call) => match C::of(call) {
            Some(call) => Ok(Reply::Number(call.make(net)?)),
            None => Err(TextFault::NoCall),
        },
        Request::Rows => Ok(Reply::Rows(net.rows()?)),
        Request::Path(k) => Ok(Reply::Path(net.path(k)?)),
        Request::Worst => Ok(Reply::Worst(net.worst()?)),
    }
}

impl<S: Space, C: JobCall<S>> Answerer for OverNet<S, C> {
    ghost stage = { λ o. overNet (C.NetCall.geometry o.net.space) C.JobCall.joins o.net.state };

    ghost laws = { λ o. C.NetCall.keeps o.net.space };

    fn answer_at(&mut self, number: u64, line: &[u8], out: &mut [u8], at: usize) -> Option<usize> {
        let answer = answer::<S, C>(&mut self.net, read(line));
        put_answer(&self.net, number, answer, out, at)
    }
}

impl Answerer for NoNet {
    ghost stage = { λ _. withoutNet };

    ghost laws = { λ _. tt };

    fn answer_at(&mut self, number: u64, line: &[u8], out: &mut [u8], at: usize) -> Option<usize> {
        let fault = match read(line) {
            Ok(_) => TextFault::OutOfPlace,
            Err(fault) => fault,
        };
        let text = last_line(number, Err(fault));
        put(out, at, text.as_bytes())
    }
}
