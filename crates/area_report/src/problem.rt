//! The planning problem of a command, and its ego.

ghost use Rattle.std.specs.Prelude.{◌≡◌, ◌==◌, ◌*◌, ◌≤◌, pos, find, IfOk, IfErr};
ghost use Rattle.spot_terms.specs.Ranges.{IsCommandInRange, IsProblemInRange};
ghost use Rattle.spot_claims.specs.Problems.{chosen};
ghost use Rattle.area_report.specs.Egos.{HasEgo, IsEgoOf, IsProblemFault};

use base_sets::{EgoBounds, EgoStart, Grid};
use heading::velocity_box;
use spot_terms::{Code, Command, Problem, Pt, Scenario, Status};
use text_report::EgoLine;

// The first problem with this id.
fn first_with(id: u32, problems: &[Problem]) -> Option<Problem>
    ensures { result ≡ find (λ p. p.id == id) problems.now }
{
    for p in problems {
        if p.id == id {
            return Some(*p);
        }
    }
    None
}

// The problem with the wanted id, or the first one where none is wanted.
fn chosen_of(id: Option<u32>, problems: &[Problem]) -> Option<Problem>
    ensures { result ≡ chosen id problems.now }
{
    match id {
        Some(id) => first_with(id, problems),
        None => problems.first().copied(),
    }
}

// A length or a speed in thousandths.
fn thousandths(number: u32) -> i64
    requires { number ≤ 100_000 }
    ensures { result ≡ pos (1000 * number) }
{
    1000 * i64::from(number)
}

// The ego of a problem: its start, and the bounds and the grid of the command.
fn line_of(command: &Command, problem: &Problem) -> EgoLine
    requires command { IsCommandInRange command.now }
    requires problem { IsProblemInRange problem.now }
    ensures { IsEgoOf command.now problem.now result }
{
    EgoLine {
        problem: problem.id,
        e: EgoBounds {
            a: i64::from(command.ego_acc),
            v: thousandths(command.ego_speed),
        },
        grid: Grid {
            w: thousandths(command.cell_x),
            g: thousandths(command.cell_y),
        },
        s: EgoStart {
            p: Pt {
                x: problem.x,
                y: problem.y,
            },
            b: velocity_box(problem.speed, problem.angle),
        },
    }
}

/// The ego of the problem that a command chooses, or the status that refuses it: there is no such problem, it begins after
/// time 0, or a speed of its start is above the ego's.
pub fn ego_of(scenario: &Scenario, command: &Command) -> Result<EgoLine, Status>
    requires command { IsCommandInRange command.now }
    ensures ok { IfOk result (λ e. HasEgo scenario.now command.now e) }
    ensures err { IfErr result (λ status. IsProblemFault scenario.now command.now status) }
{
    let Some(problem) = chosen_of(command.problem, scenario.problems.list()) else {
        return Err(Status::Refused(Code::NoProblem, 0));
    };
    if problem.time > 0 {
        return Err(Status::Refused(Code::LateProblem, problem.place));
    }
    let ego = line_of(command, &problem);
    if ego.s.fits(&ego.e) {
        Ok(ego)
    } else {
        Err(Status::Refused(Code::EgoTooFast, problem.place))
    }
}
