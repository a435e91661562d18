//! Strengths of nets.

ghost use Rattle.replaced_cells.specs.Levels.{LevelsComeFromCells, LevelsGoDown};

/// Where nothing is wrong with the instance whole, a net outside that always has a strength there has it with the cell in the circuit.
pub fn levels_go_down()
    ensures { LevelsGoDown }
{}

/// A plain net of the cell that always has a strength in the cell alone has it in the circuit.
pub fn levels_come_from_cells()
    ensures { LevelsComeFromCells }
{}
