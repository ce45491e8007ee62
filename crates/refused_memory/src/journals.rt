//! Journals: the events of a report happen one after another.
use crate::collecting::verdicts_of;
use crate::making::{course_of, event_of, picture_of_course, report_of};
use crate::pictures::Picture;
use crate::trial::Trial;
use cluster_course::{Course, Halt};
use std::{io, str};

/// Plays the journal that the report repeats: whether its report is this one, and a collector alone finds the same verdicts. Where
/// the course has given up its collectors, all is begun anew.
pub fn is_played(rt: &impl Print, trial: &mut Trial, report: &str) -> io::Result<bool> {
    for _ in 0..2 {
        if let Some(mut course) = play(rt, trial, report)? {
            let found = report_of(trial, &mut course)?;
            let verdicts = verdicts_of(rt, trial, course.world(), report)?;
            return Ok(
                is_text(found.as_slice(), report) && are_verdicts(verdicts.as_slice(), report),
            );
        }
        trial.make_anew();
    }
    Ok(false)
}

/// The events of the report's lines happen; None where the course has given up its collectors.
fn play(rt: &impl Print, trial: &mut Trial, report: &str) -> io::Result<Option<Course>> {
    let mut course = course_of(trial, report)?;
    for line in report.lines().skip(1) {
        if !follow(rt, trial, &mut course, line)? {
            return Ok(None);
        }
    }
    Ok(Some(course))
}

/// The line's event happens, if it spells one; no where the course has given up its collectors.
fn follow(rt: &impl Print, trial: &mut Trial, course: &mut Course, line: &str) -> io::Result<bool> {
    let Some(event) = event_of(trial, line) else {
        return Ok(true);
    };
    let before = picture_of_course(trial, course)?;
    match course.follow(event) {
        Ok(_) => Ok(true),
        Err(Halt::NoMemory) => follow_again(rt, trial, course, line, &before),
        Err(_) => Err(io::ErrorKind::InvalidData.into()),
    }
}

/// The line's event was refused. The course is as before, or it has given up its collectors, and the event happens at the second
/// time; no where it has given them up.
fn follow_again(
    rt: &impl Print,
    trial: &mut Trial,
    course: &mut Course,
    line: &str,
    before: &Picture,
) -> io::Result<bool> {
    let after = picture_of_course(trial, course)?;
    let is_given_up = after.is_given_up(before);
    trial.judge(rt, line, before, &after, is_given_up)?;
    let Some(event) = event_of(trial, line) else {
        return Ok(false);
    };
    match course.follow(event) {
        Ok(_) => Ok(true),
        Err(Halt::NoMemory) if is_given_up => Ok(false),
        Err(_) => Err(io::ErrorKind::InvalidData.into()),
    }
}

/// Whether the bytes are this text, with a line feed.
fn is_text(found: &[u8], wanted: &str) -> bool {
    match str::from_utf8(found) {
        Ok(text) => text.strip_suffix('\n') == Some(wanted),
        Err(_) => false,
    }
}

/// Whether the bytes are the lines of the report's verdicts.
fn are_verdicts(found: &[u8], report: &str) -> bool {
    let Ok(text) = str::from_utf8(found) else {
        return false;
    };
    let mut lines = text.lines();
    for line in report.lines() {
        if (line.starts_with("cut ") || line.starts_with("stop ")) && lines.next() != Some(line) {
            return false;
        }
    }
    lines.next().is_none()
}
