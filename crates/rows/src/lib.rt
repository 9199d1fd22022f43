// Rows of five numbers, as document 01 gives answers: the refusal first.
#![tactic(auto)]

ghost use Rattle.std.specs.Prelude.{◌≡◌, [], ◌∷◌};
ghost use Rattle.machine.specs.Judge.{numbers};
ghost use Rattle.rows.specs.Inner.Told.{answer_numbered};

use machine::Accepted;

// Writes five numbers to a row.
pub fn put_row(row: &mut [u64; 5], a: u64, b: u64, c: u64, d: u64, e: u64)
    ensures { row.new ≡ a ∷ b ∷ c ∷ d ∷ e ∷ [] }
{
    *row = [a, b, c, d, e];
}

// Writes the row of an answer, its refusal by any number.
#[tactic(auto, unfolding(machine::specs::Judge::numbers))]
pub fn put_answer(answer: Result<Accepted, u64>, row: &mut [u64; 5])
    ensures { row.new ≡ numbers (answer_numbered answer) }
{
    *row = match answer {
        Err(number) => [number, 0, 0, 0, 0],
        Ok(
            Accepted::Judged {
                verdict,
                grant,
                roottrip,
                firmtrip,
            },
        ) => {
            let root = u64::from(roottrip);
            let firm = u64::from(firmtrip);
            [0, verdict, grant, root, firm]
        }
        Ok(Accepted::Left(left)) => [0, left, 0, 0, 0],
        Ok(Accepted::Standing(roots)) => {
            let tripped = roots.tripped as u64;
            let user = roots.user as u64;
            let locked = roots.locked as u64;
            let lowest = roots.lowest as u64;
            [0, tripped, user, locked, lowest]
        }
    };
}
