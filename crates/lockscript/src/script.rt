//! Scripts, and how they are read from texts.
ghost use Rattle.std.specs.Prelude.{◌≡◌, ◌≢◌, ◌≤◌, ℕ, List, [], IfErr, IfOk, OnOk};
ghost use Rattle.lockscript.specs.declared.error.ParseError.TheVariants.{BadLine, NoMemory};
ghost use Rattle.lockscript.specs.rule.Scripts.{Begun, HasScript, IsBadFirst, IsBadLine, IsLine, IsNoLine, IsRefused, IsScript, ScriptFields, line_text, script_of};
ghost use Rattle.lockscript.specs.rule.ShapedScripts.{IsClusterLine, IsForShape, IsRefusedForShape};
ghost use Rattle.lockscript.specs.rule.ThreadLines.{bad_line, IsForThreads, IsRefusedOnThreads};

use crate::cluster_line::shape_of;
use crate::commands::command_of;
use crate::error::ParseError;
use crate::lines::{Lines, NumberedLine};
use crate::script_line::ScriptLine;
use messages::Shape;
use std::alloc::Global;
use std::marker::Model;

/// A script: the shape of a cluster, and the lines to run on it, in order.
#[derive(Drop)]
pub struct Script {
    shape: Shape,
    lines: Vec<ScriptLine>,
}

impl Model for Script {
    ghost use Rattle.lockscript.specs.rule.Scripts.{ScriptFields};

    ghost Value = { ScriptFields };

    ghost view = { λ s. record { shape = s.shape; lines = s.lines.items } };
}

impl Script {
    /// The script whose text this is. Each line ends with a line feed, the last one too; empty
    /// lines and lines that begin with `#` are skipped. The first other line is
    /// `cluster nodes N files F policy P`, which stands once; the other lines are `call N PID OP`,
    /// `interrupt N PID`, `retry N PID`, `settle`, `deliver K`, `lose K`, `resend F`, `declare N`,
    /// `restart N`, `fail-server F`, `start-server F` and `learn F N I`, in lines up to number
    /// 4294967295. OP is `spawn`, `fork PID`, `open F ACCESS`, `dup FD`, `close FD`, `exit`,
    /// `set FD KIND MODE START LEN`, `wait FD KIND MODE START LEN`, `unlock FD KIND START LEN` or
    /// `query FD KIND MODE START LEN`, with ACCESS `r`, `w` or `rw`, KIND `proc` or `desc`, and
    /// MODE `read` or `write`.
    /// Fields are separated by one space, and numbers are decimal, without leading zeros or a
    /// leading `+`.
    ///
    /// # Errors
    /// `BadLine` with the number, from 1, of the first line that may not stand where it does, or
    /// with the number after the last line if no line is bad but there is no cluster line;
    /// `NoMemory` if no line is bad and a request for memory was refused.
    pub fn parse(alloc: Global, text: &str) -> Result<Script, ParseError>
        ensures script { IfOk result (IsScript text.now) }
        ensures refused { IfErr result (IsRefused text.now) }
    {
        let mut source = Lines::new(text);
        let shape = shape_in(&mut source)?;
        let mut lines = Vec::new(alloc);
        while let Some(line) = source.next_command()? {
            let made = script_line(line)?;
            match lines.push(made) {
                Ok(()) => {}
                Err(_) => return Err(refusal_without_memory(text)),
            }
        }
        Ok(Script { shape, lines })
    }

    /// The script whose text this is, as for `parse`, if all its lines are ones that threads take.
    ///
    /// # Errors
    /// `BadLine` with the number, from 1, of the first line that may not stand where it does or
    /// that threads don't take, or with the number after the last line if no line is bad but there
    /// is no cluster line; `NoMemory` if no line is bad and a request for memory was refused.
    pub fn parse_for_threads(alloc: Global, text: &str) -> Result<Script, ParseError>
        ensures script { IfOk result (IsForThreads text.now) }
        ensures refused { IfErr result (IsRefusedOnThreads text.now) }
    {
        let Ok(script) = Script::parse(alloc, text) else {
            return Err(refusal_on_threads(text));
        };
        match script.bad_line_on_threads() {
            None => Ok(script),
            Some(_) => Err(refusal_on_threads(text)),
        }
    }

    /// The script whose text this is, as for `parse`, if its cluster has this shape.
    ///
    /// # Errors
    /// `BadLine` with the number of the cluster line if that names another shape, and else as for
    /// `parse`; `NoMemory` if no line is bad and a request for memory was refused.
    pub fn parse_for_shape(alloc: Global, shape: &Shape, text: &str) -> Result<Script, ParseError>
        ensures script { IfOk result (IsForShape shape.now text.now) }
        ensures refused { IfErr result (IsRefusedForShape shape.now text.now) }
    {
        check_shape(shape, text)?;
        Script::parse(alloc, text)
    }

    /// The shape of the cluster that the script runs on.
    pub fn shape(&self) -> Shape
        ensures { result ≡ self.now.shape }
    {
        self.shape
    }

    /// The lines of the script but for the cluster line, in order.
    pub fn lines(&self) -> &[ScriptLine]
        ensures { result.now ≡ self.now.lines }
    {
        self.lines.as_slice()
    }

    /// The lines of the script but for the cluster line, in order, where the script itself is not
    /// needed any more.
    pub fn into_lines(self) -> Vec<ScriptLine>
        ensures { result.items ≡ self.lines }
    {
        self.lines
    }

    /// The number of the first line that threads don't take, if there is one.
    pub fn bad_line_on_threads(&self) -> Option<u32>
        ensures { result ≡ bad_line self.now.lines }
    {
        let line = self
            .lines
            .iter()
            .find(|line| !line.command().is_for_threads())?;
        Some(line.number())
    }
}

// Takes the cluster line, the first line of a text that isn't skipped, and gives its shape.
fn shape_in(source: &mut Lines<'_>) -> Result<Shape, ParseError>
    requires { source.old.taken ≡ 0 }
    ensures begun { IfOk result (λ shape. Begun source.old.rest.now (script_of shape []) source.new.rest.now source.new.taken) }
    ensures bad { IfErr result (IsBadFirst source.old.rest.now) }
{
    let (_, shape) = cluster_in(source)?;
    Ok(shape)
}

// Takes the cluster line, the first line of a text that isn't skipped, and gives its number and its
// shape.
fn cluster_in(source: &mut Lines<'_>) -> Result<(u64, Shape), ParseError>
    requires { source.old.taken ≡ 0 }
    ensures cluster { IfOk result (λ found. IsClusterLine source.old.rest.now found.0 found.1 source.new.rest.now) }
    ensures taken { IfOk result (λ found. source.new.taken ≡ found.0) }
    ensures bad { IfErr result (IsBadFirst source.old.rest.now) }
{
    let Some(first) = source.next_command()? else {
        return Err(ParseError::BadLine(source.next_number()));
    };
    match shape_of(first.text) {
        Some(shape) => Ok((first.number, shape)),
        None => Err(ParseError::BadLine(first.number)),
    }
}

// Checks that the cluster line of the text names this shape.
fn check_shape(shape: &Shape, text: &str) -> Result<(), ParseError>
    ensures same { OnOk result ((number : ℕ) × ((rest : List ℕ) × IsClusterLine text.now number shape.now rest)) }
    ensures bad { IfErr result (λ error. (error ≢ NoMemory) × IsRefusedForShape shape.now text.now error) }
{
    let mut source = Lines::new(text);
    let (number, found) = cluster_in(&mut source)?;
    if found != *shape {
        return Err(ParseError::BadLine(number));
    }
    Ok(())
}

// The reason for which a text is refused when there is no memory: its first bad line, if it has
// one, else `NoMemory`.
fn refusal_without_memory(text: &str) -> ParseError
    ensures { IsRefused text.now result }
{
    match check(text) {
        Ok(()) => ParseError::NoMemory,
        Err(bad) => bad,
    }
}

// Checks that the text is a script.
fn check(text: &str) -> Result<(), ParseError>
    ensures script { OnOk result (HasScript text.now) }
    ensures bad { IfErr result (IsBadLine text.now) }
{
    let mut source = Lines::new(text);
    shape_in(&mut source)?;
    while let Some(line) = source.next_command()? {
        script_line(line)?;
    }
    Ok(())
}

// The reason for which a text is refused that isn't read as a script for threads: its first bad
// line, if it has one, else `NoMemory`.
fn refusal_on_threads(text: &str) -> ParseError
    ensures { IsRefusedOnThreads text.now result }
{
    match check_for_threads(text) {
        Ok(()) => ParseError::NoMemory,
        Err(bad) => bad,
    }
}

// Checks that the text is a script all of whose lines threads take.
fn check_for_threads(text: &str) -> Result<(), ParseError>
    ensures script { OnOk result ((script : ScriptFields) × IsForThreads text.now script) }
    ensures bad { IfErr result (λ error. (error ≢ NoMemory) × IsRefusedOnThreads text.now error) }
{
    let mut source = Lines::new(text);
    shape_in(&mut source)?;
    while let Some(line) = source.next_command()? {
        let made = script_line(line)?;
        if !made.command().is_for_threads() {
            return Err(ParseError::BadLine(line.number));
        }
    }
    Ok(())
}

// The line of a script that this line of a text is. Listings have 32 bits for the number of a line,
// so a line with a greater number is bad.
fn script_line(line: NumberedLine<'_>) -> Result<ScriptLine, ParseError>
    requires { 1 ≤ line.number }
    ensures made { IfOk result (λ made. IsLine made × ((line.entry.number, line.entry.text.now) ≡ line_text made)) }
    ensures bad_line { IfErr result (λ error. (error ≡ BadLine line.entry.number) × IsNoLine line.entry.number line.entry.text.now) }
{
    let bad = ParseError::BadLine(line.number);
    let command = command_of(line.text).ok_or(bad)?;
    let number = u32::try_from(line.number).map_err(|_| bad)?;
    Ok(ScriptLine::new(number, command))
}
