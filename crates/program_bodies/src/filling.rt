// Methods get the bodies of their rows.
ghost use Rattle.std.specs.Prelude.{◌≡◌, ℕ, ◌<◌, List, map, length, slice_get, option_and_then, Option, Some};
ghost use Rattle.cil_model.specs.declared.body.Body.{Body};
ghost use Rattle.set_rows.specs.Sets.{Assemblies};
ghost use Rattle.set_program.specs.Numbering.{Cell};
ghost use Rattle.method_bodies.specs.Rows.{code_in};
ghost use Rattle.descriptions.specs.Programs.{program_of};
ghost use Rattle.descriptions.specs.WholePrograms.{IsProgramOf};
ghost use Rattle.program_bodies.specs.Filled.{AreSetBodies, EachOnce, HoldsBodies, body_of_cell, body_of_row, filled, given_at, row_of};

use cil_model::{Body, MethodDescs, Program};

/// Takes the body of a row out of a list that has them by row from 0.
fn take_row(bodies: &mut Vec<Option<Body>>, row: u32) -> Option<Body>
    ensures taken { result ≡ body_of_row bodies.old.items row }
    ensures others { (r : ℕ) → (r ≡ row → ⊥) → body_of_row bodies.new.items r ≡ body_of_row bodies.old.items r }
{
    if row == 0 || row as usize > bodies.len() {
        return None;
    }
    bodies[row as usize - 1].take()
}

/// Takes the body of a row of an assembly.
fn take_body(bodies: &mut Vec<Vec<Option<Body>>>, a: u32, row: u32) -> Option<Body>
    ensures taken { result ≡ body_of_cell (map (λ v. v.items) bodies.old.items) (Some (a, row)) }
    ensures others { (c : Cell) → (c ≡ (a, row) → ⊥) → body_of_cell (map (λ v. v.items) bodies.new.items) (Some c) ≡ body_of_cell (map (λ v. v.items) bodies.old.items) (Some c) }
{
    if a as usize >= bodies.len() {
        return None;
    }
    take_row(&mut bodies[a as usize], row)
}

/// Takes the body of a method, where it isn't outside.
fn take_of(bodies: &mut Vec<Vec<Option<Body>>>, cell: Option<(u32, u32)>) -> Option<Body>
    ensures taken { result ≡ body_of_cell (map (λ v. v.items) bodies.old.items) cell }
    ensures others { (c : Cell) → (Some c ≡ cell → ⊥) → body_of_cell (map (λ v. v.items) bodies.new.items) (Some c) ≡ body_of_cell (map (λ v. v.items) bodies.old.items) (Some c) }
{
    match cell {
        None => None,
        Some((a, row)) => take_body(bodies, a, row),
    }
}

/// The assembly and row of a method; None where it is outside.
fn row_of(methods: &MethodDescs, m: usize) -> Option<(u32, u32)>
    ensures { result ≡ option_and_then row_of (slice_get methods.now m) }
{
    match methods.get(m) {
        None => None,
        Some(method) => {
            if method.outside {
                return None;
            }
            Some((method.assembly, method.row))
        }
    }
}

/// Gives a method a body, where there is one.
fn give(methods: &mut MethodDescs, m: usize, body: Option<Body>)
    requires { m < length methods.old }
    ensures { methods.new ≡ given_at methods.old m body }
{
    if let Some(body) = body {
        let _earlier = methods.set_body(m, body);
    }
}

/// Gives each method the body of its row.
fn fill(methods: &mut MethodDescs, bodies: &mut Vec<Vec<Option<Body>>>)
    ensures { EachOnce (map row_of methods.old) → methods.new ≡ filled (map (λ v. v.items) bodies.old.items) methods.old }
{
    for m in 0..methods.len() {
        let row = row_of(methods, m);
        let body = take_of(bodies, row);
        give(methods, m, body);
    }
}

/// Moves the bodies of a set into the methods of its program; `bodies` has those of each assembly, by
/// row from 0.
pub fn set_bodies(program: &mut Program, bodies: Vec<Vec<Option<Body>>>)
    ensures whole { (s : Assemblies) → 0 < length s → program.old ≡ program_of s → AreSetBodies s (map (λ v. v.items) bodies.items) → IsProgramOf (code_in s) s program.new }
    ensures held { (s : Assemblies) → 0 < length s → program.old ≡ program_of s → HoldsBodies s (map (λ v. v.items) bodies.items) program.new }
{
    let mut bodies = bodies;
    fill(&mut program.methods, &mut bodies);
}
