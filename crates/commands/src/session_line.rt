//! The lines of a session, which is `serve --live`.
ghost use Rattle.commands.specs.SessionLines.{session_line_of};

use crate::bad_lines::ExpectedLine;
use crate::lines::Lines;
use crate::script::{Line, LineFault};
use crate::serve_line::ServeLine;
use std::alloc::Global;

/// A line of a session: `serve --live`, which answers each line before it reads the next one.
#[derive(Drop)]
pub enum SessionLine {
    /// A line that scripts have too.
    Serve(ServeLine),
    /// `help`: the lines of a session, and the request that each makes.
    Help,
}

impl Line for SessionLine {
    ghost by_definition = { session_line_of };

    fn parse<'a>(
        alloc: Global,
        line: &'a [u8],
        lines: &mut Lines<'a>,
    ) -> Result<SessionLine, LineFault> {
        if line == b"help".as_slice() {
            return Ok(SessionLine::Help);
        }
        let line = ServeLine::parse(alloc, line, lines)?;
        Ok(SessionLine::Serve(line))
    }

    fn expected(line: &[u8], following: &[u8]) -> ExpectedLine {
        ExpectedLine::of_serve(line, following)
    }
}
