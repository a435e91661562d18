//! What help and the version are.

ghost use Rattle.std.specs.Prelude.{◌≡◌};
ghost use Rattle.command_line.specs.Manual.{help_text, version_line};

/// The line of the version.
pub fn version() -> &'static [u8]
    ensures { result.now ≡ version_line }
{
    b"verity 0.1.0\n"
}

/// The use of the words, a line for each option and each mode, and the meaning of each status.
pub fn help() -> &'static [u8]
    ensures { result.now ≡ help_text }
{
    b"verity [--do MODE] [--cell C] [--phase P] [--at LIST] [--budget N] [--size N] [--rise LIST] [SPICE BLIF RULES]\n\
      Checks the cells of a SPICE netlist against the models of a BLIF file, or of gate-level Verilog where its name ends in .v, by a rules file.\n\
\n\
      --do MODE      what to do: check (if not given), replay, classes, gen, arrive or blif\n\
      --cell C       check, classes: C and the cells below it alone; replay, arrive, blif: the cell, needed\n\
      --phase P      replay, arrive: the phase, needed\n\
      --at LIST      replay: bits of variables, as a=1,b=0; those not named are 0\n\
      --budget N     check, gen, arrive, blif: nodes of diagrams, from 65536 to 64000000\n\
      --size N       gen: the size, from 1 to 32, needed\n\
      --rise LIST    arrive: input ports that rise, as a,b, needed\n\
      -h, --help     this text\n\
      -V, --version  the version\n\
\n\
      check          the verdict on each cell\n\
      replay         the values of the nets of a cell at one valuation\n\
      classes        the class of each channel-connected part\n\
      gen            makes a hierarchy of cells, and checks it; no files are named\n\
      arrive         whether the order matters in which inputs of a cell rise\n\
      blif           a BLIF model of what the transistors of a cell do\n\
\n\
      status 0       each cell is equal, or what was asked for is written\n\
      status 1       a cell has a fault, or the order of arrivals matters\n\
      status 2       the words are not understood\n\
      status 3       a file is too long or faulty, or a name is not there\n\
      status 4       no cell has a fault, and one was not decided, or the order of arrivals, or no model is written\n\
      status 5       a file could not be read\n\
      status 6       the output could not be written\n\
      status 7       memory was wanting\n\
\n\
      docs/FAULTS.md     after a fault or a refusal: what each line means, and what to do\n\
      docs/RULES.md      what the rules declare for each kind of cell\n\
      docs/FORMATS.md    what each file may hold, and what is refused\n\
      docs/LIBRARIES.md  netlists and models as other tools write them\n\
\n\
      limits of a file  16777216 bytes; 4096 cells, each with 4096 ports and 40000 cards\n\
      limits of a cell  20000 nets, 40000 devices, and 1000 variables in a phase\n"
}
