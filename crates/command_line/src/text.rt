// What the program prints.
ghost use Rattle.std.specs.Prelude.{◌≡◌, ◌-◌, ◌^◌, [], true, false, IfOk, string_bytes};
ghost use Rattle.std.specs.Fmt.{digits, format_spec, padded_integral};
ghost use Rattle.command_line.specs.Text.{done_text, rewrite_text, hex_pair, refusal_text, words_text, store_text};

use cil_base::Refusal;
use std::alloc::{AllocError, Global};

pub fn text_of_done(alloc: Global, clauses: u32) -> Result<String, AllocError>
    ensures { IfOk result (λ text. string_bytes text ≡ done_text clauses) }
{
    format!(in alloc; "body: {clauses} clauses\n")
}

pub fn text_of_rewrite(
    alloc: Global,
    assemblies: u32,
    methods: u32,
    clauses: u32,
) -> Result<String, AllocError>
    ensures { IfOk result (λ text. string_bytes text ≡ rewrite_text assemblies methods clauses) }
{
    format!(in alloc; "ok: {assemblies} assemblies, {methods} methods, {clauses} clauses\n")
}

fn padded_byte(alloc: Global, n: u8) -> Result<String, AllocError>
    ensures { IfOk result (λ text. string_bytes text ≡ padded_integral (format_spec 32 0 4 2 (2 ^ 64 - 1)) false [] (digits 16 true n)) }
{
    format!(in alloc; "{n:02X}")
}

/// Two upper-case hexadecimal digits.
fn text_of_byte(alloc: Global, n: u8) -> Result<String, AllocError>
    ensures { IfOk result (λ text. string_bytes text ≡ hex_pair n) }
{
    padded_byte(alloc, n)
}

pub fn text_of_refusal(alloc: Global, r: Refusal) -> Result<String, AllocError>
    ensures { IfOk result (λ text. string_bytes text ≡ refusal_text r) }
{
    let Refusal {
        rule,
        assembly,
        table,
        row,
        at,
    } = r;
    let table = text_of_byte(alloc, table)?;
    format!(in alloc; "refused: {rule} assembly {assembly} table {table} row {row} at {at}\n")
}

pub fn text_of_words(alloc: Global, k: usize) -> Result<String, AllocError>
    ensures { IfOk result (λ text. string_bytes text ≡ words_text k) }
{
    format!(in alloc; "words: {k}\n")
}

pub fn text_of_store(alloc: Global, name: &str) -> Result<String, AllocError>
    ensures { IfOk result (λ text. string_bytes text ≡ store_text name.now) }
{
    format!(in alloc; "store: {name}\n")
}
