//! A session on its thread.

ghost use Rattle.std.specs.Prelude.{◌≡◌, ◌⊎◌, ◌∷◌, ◌++◌, [], Err, OnOk, IfOk, IfErr, IsOkAnd};
ghost use Rattle.program.specs.Files.{writing_of};
ghost use Rattle.program.specs.Freely.{HasPlayed, SessionsEnd};

use crate::fault::Fault;
use crate::free::commands::{Client, append};
use crate::free::sinks::Sinks;
use pass::token::Pass;
use pass::word::Naming;
use script::script::Line;
use server::shared::Server;
use std::alloc::Global;
use std::sync::Wait;
use std::thread::Threads;

/// A session: its server, the lines of the script, its pass, and what is printed of its own lines once
/// they are done, or why it has stopped.
#[derive(Drop)]
pub(crate) struct Seat<'p, 's, 'w, J: Naming<Global>, S> {
    pub(crate) server: &'s Server<'w, J>,
    pub(crate) sinks: &'s S,
    pub(crate) lines: &'p [Line],
    pub(crate) pass: Pass<'w, J>,
    pub(crate) told: Result<Vec<u8>, Fault<'p>>,
}

impl<'p, 's, 'w, J: Naming<Global>, S: Sinks> Seat<'p, 's, 'w, J, S> {
    /// The session of a pass, which has done nothing yet.
    pub(crate) fn new(
        alloc: Global,
        server: &'s Server<'w, J>,
        sinks: &'s S,
        lines: &'p [Line],
        pass: Pass<'w, J>,
    ) -> Seat<'p, 's, 'w, J, S>
        ensures pass { result.pass ≡ pass.entry }
        ensures lines { result.lines.now ≡ lines.entry.now }
    {
        Seat {
            server,
            sinks,
            lines,
            pass,
            told: Ok(Vec::new(alloc)),
        }
    }

    /// Does the session's lines, in their order. It stops at a fault. Then the session leaves, whether or not all its
    /// lines were done: it leaves no open transaction for which others would wait.
    #[tactic(auto, unfolding(crate::specs::Freely::HasPlayed))]
    pub(crate) fn play<T: Threads + Wait + Sync>(&mut self, rt: &T, alloc: Global)
        ensures told { IfOk self.new.told (λ text. HasPlayed (writing_of S.Out.path S.Out.kept S.Out.failures) J.opening J.most
            self.old.lines.now self.old.pass text.items self.new.pass) }
        ensures fault { IfErr self.new.told (λ f. SessionsEnd J.opening J.most self.old.lines.now f) }
    {
        let client = Client {
            rt,
            alloc,
            server: self.server,
            sinks: self.sinks,
        };
        self.told = client.tell_lines(&mut self.pass, self.lines);
        self.server.leave(rt, alloc, &mut self.pass);
    }

    /// Adds its pass, and what is printed of it, to those of the sessions before it; or returns why it has stopped.
    pub(crate) fn end(
        self,
        passes: &mut Vec<Pass<'w, J>>,
        text: &mut Vec<u8>,
    ) -> Result<(), Fault<'p>>
        ensures passes { OnOk result (passes.new.items ≡ passes.old.items ++ self.entry.pass ∷ []) }
        ensures text { OnOk result (IsOkAnd self.entry.told (λ v. text.new.items ≡ text.old.items ++ v.items)) }
        ensures fault { IfErr self.entry.told (λ f. result ≡ Err f) }
        ensures why { IfErr result (λ f. (f ≡ Fault.ScriptOutOfMemory) ⊎ (self.entry.told ≡ Err f)) }
    {
        let Seat {
            server: _,
            sinks: _,
            lines: _,
            pass,
            told,
        } = self;
        let told = told?;
        append(told.as_slice(), text)?;
        match passes.push(pass) {
            Ok(()) => Ok(()),
            Err(_) => Err(Fault::ScriptOutOfMemory),
        }
    }
}
