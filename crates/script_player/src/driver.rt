//! The driver of a run.
ghost use Rattle.std.specs.Prelude.{◌≡◌, IfErr, IfOk, None, OnOk};
ghost use Rattle.script_reader.specs.Valid.{IsScript};
ghost use Rattle.run_model.specs.Doing.{beginning};
ghost use Rattle.run_model.specs.Schedule.{one_more};
ghost use Rattle.script_player.specs.Beginning.{IsBegun};
ghost use Rattle.script_player.specs.Reported.{IsRunFault, ReportsFixed};
ghost use Rattle.script_player.specs.Standing.{IsBetween};

use crate::beginning::begin_course;
use crate::fault::RunFault;
use crate::making::make_round;
use behaviour_lang::Code;
use cluster_course::Course;
use cluster_course::laws::a_legal_history_is_rightly_collected;
use crgc_ids::NoMemory;
use script_actors::ScriptActors;
use script_progress::Progress;
use script_reader::Script;
use std::alloc::Global;
use std::snapshot::Snapshot;

/// A run of a script by the fixed schedule: the course of its cluster, its actors between their turns, how much of its plan is used,
/// and what is left of the script beside.
#[derive(Drop)]
pub struct Driver {
    pub(crate) course: Course,
    pub(crate) actors: ScriptActors,
    pub(crate) progress: Progress,
    pub(crate) code: Code,
    pub(crate) nodes: u8,
    pub(crate) alloc: Global,
    pub(crate) script: Snapshot<Script>,
}

impl Driver {
    /// The run at the script's beginning, with its seeds and ties, for a report in brief or in full.
    pub(crate) fn begin(alloc: Global, script: Script, brief: bool) -> Result<Driver, RunFault>
        requires { IsScript script }
        ensures script { IfOk result (λ d. d.script.value ≡ script) }
        ensures between { IfOk result IsBetween }
        ensures fault { IfErr result (IsRunFault script) }
    {
        match begin_course(alloc, &script, brief) {
            Ok(course) => Ok(Driver::with_course(alloc, script, course)?),
            Err(fault) => Err(fault),
        }
    }

    /// The run at the script's beginning, whose course this is.
    fn with_course(alloc: Global, script: Script, course: Course) -> Result<Driver, NoMemory>
        requires script { IsScript script }
        requires begun { IsBegun script (beginning script) course }
        ensures script { IfOk result (λ d. d.script.value ≡ script) }
        ensures between { IfOk result IsBetween }
    {
        let start = Snapshot::of(&script);
        let actors = ScriptActors::begin(alloc, &script)?;
        let Script {
            nodes,
            code,
            seeds,
            ties: _ties,
            plan,
            turns,
        } = script;
        let progress = Progress::begin(alloc, nodes, &seeds, plan, turns)?;
        Ok(Driver {
            course,
            actors,
            progress,
            code,
            nodes,
            alloc,
            script: start,
        })
    }

    /// Whatever is possible is done, again and again, until nothing is.
    pub(crate) fn go_on(&mut self) -> Result<(), RunFault>
        requires { IsBetween self.old }
        ensures script { self.new.script.value ≡ self.old.script.value }
        ensures between { OnOk result (IsBetween self.new) }
        ensures done { OnOk result (one_more self.new.script.value self.new.course.past ≡ None) }
        ensures fault { IfErr result (IsRunFault self.old.script.value) }
    {
        loop {
            match self.carry_all() {
                Ok(()) => {}
                Err(fault) => return Err(fault),
            }
            match self.turn() {
                Ok(true) => {}
                Ok(false) => return Ok(()),
                Err(fault) => return Err(fault),
            }
        }
    }

    /// One more round closes the run, where nothing is possible any more; the answer is its report.
    pub(crate) fn close(&mut self, brief: bool) -> Result<Vec<u8>, RunFault>
        requires between { IsBetween self.old }
        requires done { one_more self.old.script.value self.old.course.past ≡ None }
        ensures report { IfOk result (λ bytes. ReportsFixed self.old.script.value brief bytes.items) }
        ensures fault { IfErr result (IsRunFault self.old.script.value) }
    {
        make_round(&mut self.course)?;
        a_legal_history_is_rightly_collected();
        match self.course.report(self.alloc, brief) {
            Ok(bytes) => Ok(bytes),
            Err(_) => Err(RunFault::NoMemory),
        }
    }
}
