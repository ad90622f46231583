//! Conversations on standard input and standard output, each held by the loop of camp_talk.
use crate::words::Form;
use camp_talk::{
    Backend, Command, FrameFault, Frames, GroupLimits, Lines, Prompts, Response, Stop, TalkFault,
    run,
};
use std::io::{BufReader, IsTerminal, Stdin};

/// Each answer is written before the next command, or the next request, is read.
pub(crate) const ONE_BY_ONE: GroupLimits = GroupLimits { calls: 1, bytes: 1 };

/// While further commands are ready, answers wait for the commit after 256 calls or a mebibyte of answers.
pub(crate) const GROUPED: GroupLimits = GroupLimits {
    calls: 256,
    bytes: 1 << 20,
};

/// Why a conversation ended before its input did.
#[derive(Debug, Drop)]
pub(crate) enum Ending<C> {
    /// A commit has failed.
    Commit(C),
    /// It could not continue for another reason.
    Talk(FrameFault),
}

/// Holds a conversation in lines; at a terminal, or if they are wished, with prompts.
pub(crate) fn talk_in_lines<B: Backend<Command, Response, Fault = TalkFault>>(
    rt: &HostRuntime,
    backend: &mut B,
    limits: GroupLimits,
    wished: Form,
) -> Result<(), Ending<B::CommitFault>> {
    let reader = match input(rt) {
        Ok(reader) => reader,
        Err(fault) => return Err(Ending::Talk(fault)),
    };
    let mut writer = rt.stdout();
    let ended = if wished == Form::Prompts || rt.stdin().is_terminal() && writer.is_terminal() {
        let mut prompts = Prompts::new(rt.alloc(), reader, rt.stdout());
        run(rt.alloc(), backend, &mut prompts, &mut writer, limits)
    } else {
        let mut lines = Lines::new(rt.alloc(), reader);
        run(rt.alloc(), backend, &mut lines, &mut writer, limits)
    };
    match ended {
        Ok(()) => Ok(()),
        Err(stop) => Err(ended_by(stop)),
    }
}

/// Holds a conversation in frames, in which each request has a commit of its own.
pub(crate) fn talk_in_frames<B: Backend<Vec<u8>, Vec<u8>, Fault = TalkFault>>(
    rt: &HostRuntime,
    backend: &mut B,
) -> Result<(), Ending<B::CommitFault>> {
    let reader = match input(rt) {
        Ok(reader) => reader,
        Err(fault) => return Err(Ending::Talk(fault)),
    };
    let mut frames = Frames::new(rt.alloc(), reader);
    match run(
        rt.alloc(),
        backend,
        &mut frames,
        &mut rt.stdout(),
        ONE_BY_ONE,
    ) {
        Ok(()) => Ok(()),
        Err(stop) => Err(ended_by(stop)),
    }
}

fn input(rt: &HostRuntime) -> Result<BufReader<Stdin>, FrameFault> {
    match BufReader::new(rt.alloc(), rt.stdin()) {
        Ok(reader) => Ok(reader),
        Err(_) => Err(FrameFault::Talk(TalkFault::Memory)),
    }
}

// Returns why a conversation has ended, by what its loop reports.
fn ended_by<C, H: Into<FrameFault>>(stop: Stop<C, TalkFault, H>) -> Ending<C> {
    match stop {
        Stop::Commit(fault) => Ending::Commit(fault),
        Stop::Read(fault) => Ending::Talk(fault.into()),
        Stop::Execute(fault) => Ending::Talk(FrameFault::Talk(fault)),
        Stop::Write(error) => Ending::Talk(FrameFault::Talk(TalkFault::Write(error))),
        Stop::Internal => Ending::Talk(FrameFault::Talk(TalkFault::Internal)),
    }
}
