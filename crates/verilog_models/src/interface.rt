//! The interface of a module.

ghost use Rattle.std.specs.Prelude.{◌≡◌, ◌++◌, ◌∷◌, [], IfOk, OnOk};
ghost use Rattle.rule_index.specs.Firsts.{value_in};
ghost use Rattle.verilog_models.specs.Models.{is_same, lines_by, ports_by};

use rule_index::FirstValues;
use std::alloc::Global;
use verilog_source::Direction;
use vrt_model::{NoMemory, Seq, Text};

/// The direction that a statement gives a name.
#[derive(Clone, Copy)]
pub struct Given {
    /// The line of the statement, from 1.
    pub line: u32,
    /// The direction.
    pub direction: Direction,
}

/// Whether two directions are the same.
fn is_same_direction(left: Direction, right: Direction) -> bool
    ensures { result ≡ is_same left right }
{
    match left {
        Direction::Inputs => match right {
            Direction::Inputs => true,
            Direction::Outputs => false,
        },
        Direction::Outputs => match right {
            Direction::Inputs => false,
            Direction::Outputs => true,
        },
    }
}

/// Adds a port and the line that gives its direction, if it is this one.
fn add_port(
    alloc: Global,
    names: &mut Seq<Text>,
    lines: &mut Seq<u32>,
    directions: &FirstValues<Given>,
    direction: Direction,
    port: &[u8],
) -> Result<(), NoMemory>
    ensures names { OnOk result (names.new ≡ names.old ++ ports_by (value_in directions.now) direction (port.now ∷ [])) }
    ensures lines { OnOk result (lines.new ≡ lines.old ++ lines_by (value_in directions.now) direction (port.now ∷ [])) }
{
    let Some(given) = directions.get(port) else {
        return Ok(());
    };
    if !is_same_direction(direction, given.direction) {
        return Ok(());
    }
    let name = Text::from_bytes(alloc, port)?;
    names.append(name)?;
    lines.append(given.line)
}

/// The ports of a direction, in the order of the list, and the lines that give it.
pub fn interface(
    alloc: Global,
    ports: &[Text],
    directions: &FirstValues<Given>,
    direction: Direction,
) -> Result<(Seq<Text>, Seq<u32>), NoMemory>
    ensures { IfOk result (λ two. (two.0 ≡ ports_by (value_in directions.now) direction ports.now) × (two.1 ≡ lines_by (value_in directions.now) direction ports.now)) }
{
    let mut names = Seq::new(alloc);
    let mut lines = Seq::new(alloc);
    let mut left = ports;
    'ports: while let Some((port, behind)) = left.split_first() {
        add_port(
            alloc,
            &mut names,
            &mut lines,
            directions,
            direction,
            port.as_bytes(),
        )?;
        left = behind;
    }
    Ok((names, lines))
}
