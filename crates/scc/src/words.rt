// The words of the command line.
ghost use Rattle.std.specs.Prelude.{◌≡◌, ◌≤◌, ◌^◌, ◌<◌, ℕ, [], ◌∷◌, map, string_bytes, codes, ◌↔◌, IfOk, OnErr, IfSome, IfNone};
ghost use Rattle.scc.specs.Words.{Spells, SpellsNumber};

use scc_text::read_natural;

/// What the words ask for.
#[derive(Clone, Copy, Debug, PartialEq, Eq)]
pub enum Mode {
    /// Answers each line as it is read, with at most `k` shadows a transaction, 1 to 8, and so many lanes, 1 to 64.
    Script { k: u32, lanes: u32 },
    /// Runs a whole input as one batch, with at most `k` shadows a transaction, 1 to 8, so many lanes, 1 to 64, and so many workers, 1
    /// to 16.
    Batch { k: u32, lanes: u32, workers: u32 },
    /// Says whether the report or the journal behind tables and programs is right, or which line is the first that isn't.
    Audit,
    /// Writes the generator's text for a seed of at most 65,536 and so many programs, 1 to 20,000.
    Gen { seed: u32, count: u32 },
}

/// The words name no mode.
#[derive(Clone, Copy, Debug, PartialEq, Eq)]
pub struct BadWords;

/// The mode that the words name: `script`, K from 1 to 8 and LANES from 1 to 64; `batch`, these two and WORKERS from 1 to 16; `audit`
/// alone; or `gen`, SEED from 0 to 65,536 and COUNT from 1 to 20,000. Each number has 1 to 10 digits. `BadWords` exactly where they name none.
pub fn read_words(words: &[String]) -> Result<Mode, BadWords>
    ensures ok { IfOk result (λ mode. Spells (map string_bytes words.now) mode) }
    ensures err { OnErr result ((mode : Mode) → ¬ Spells (map string_bytes words.now) mode) }
{
    match words {
        [mode] => read_lone_mode(mode.as_str()),
        [mode, first, second] => read_mode(mode.as_str(), first.as_str(), second.as_str()),
        [mode, first, second, third] => {
            read_long_mode(
                mode.as_str(),
                first.as_str(),
                second.as_str(),
                third.as_str(),
            )
        }
        _ => Err(BadWords),
    }
}

// A mode without numbers.
fn read_lone_mode(mode: &str) -> Result<Mode, BadWords>
    ensures ok { IfOk result (λ found. Spells (mode.now ∷ []) found) }
    ensures err { OnErr result ((found : Mode) → ¬ Spells (mode.now ∷ []) found) }
{
    if mode == "audit" {
        Ok(Mode::Audit)
    } else {
        Err(BadWords)
    }
}

// A mode with two numbers.
fn read_mode(mode: &str, first: &str, second: &str) -> Result<Mode, BadWords>
    ensures ok { IfOk result (λ found. Spells (mode.now ∷ first.now ∷ second.now ∷ []) found) }
    ensures err { OnErr result ((found : Mode) → ¬ Spells (mode.now ∷ first.now ∷ second.now ∷ []) found) }
{
    if mode == "script" {
        read_script(first, second)
    } else if mode == "gen" {
        read_gen(first, second)
    } else {
        Err(BadWords)
    }
}

// A mode with three numbers.
fn read_long_mode(mode: &str, first: &str, second: &str, third: &str) -> Result<Mode, BadWords>
    ensures ok { IfOk result (λ found. Spells (mode.now ∷ first.now ∷ second.now ∷ third.now ∷ []) found) }
    ensures err { OnErr result ((found : Mode) → ¬ Spells (mode.now ∷ first.now ∷ second.now ∷ third.now ∷ []) found) }
{
    if mode == "batch" {
        read_batch(first, second, third)
    } else {
        Err(BadWords)
    }
}

// How many shadows a transaction may have, and how many lanes there are.
fn read_sizes(k: &str, lanes: &str) -> Result<(u32, u32), BadWords>
    ensures ok { IfOk result (λ found. SpellsNumber k.now 1 8 found.0 × SpellsNumber lanes.now 1 64 found.1) }
    ensures err { OnErr result ((most width : ℕ) → SpellsNumber k.now 1 8 most → ¬ SpellsNumber lanes.now 1 64 width) }
{
    let Some(k) = read_number(k.as_bytes(), 1, 8) else {
        return Err(BadWords);
    };
    let Some(lanes) = read_number(lanes.as_bytes(), 1, 64) else {
        return Err(BadWords);
    };
    Ok((k, lanes))
}

fn read_script(k: &str, lanes: &str) -> Result<Mode, BadWords>
    ensures ok { IfOk result (λ found. Spells (codes "script" ∷ k.now ∷ lanes.now ∷ []) found) }
    ensures err { OnErr result ((found : Mode) → ¬ Spells (codes "script" ∷ k.now ∷ lanes.now ∷ []) found) }
{
    let (k, lanes) = read_sizes(k, lanes)?;
    Ok(Mode::Script { k, lanes })
}

fn read_batch(k: &str, lanes: &str, workers: &str) -> Result<Mode, BadWords>
    ensures ok { IfOk result (λ found. Spells (codes "batch" ∷ k.now ∷ lanes.now ∷ workers.now ∷ []) found) }
    ensures err { OnErr result ((found : Mode) → ¬ Spells (codes "batch" ∷ k.now ∷ lanes.now ∷ workers.now ∷ []) found) }
{
    let (k, lanes) = read_sizes(k, lanes)?;
    let Some(workers) = read_number(workers.as_bytes(), 1, 16) else {
        return Err(BadWords);
    };
    Ok(Mode::Batch { k, lanes, workers })
}

fn read_gen(seed: &str, count: &str) -> Result<Mode, BadWords>
    ensures ok { IfOk result (λ found. Spells (codes "gen" ∷ seed.now ∷ count.now ∷ []) found) }
    ensures err { OnErr result ((found : Mode) → ¬ Spells (codes "gen" ∷ seed.now ∷ count.now ∷ []) found) }
{
    let Some(seed) = read_number(seed.as_bytes(), 0, 65_536) else {
        return Err(BadWords);
    };
    let Some(count) = read_number(count.as_bytes(), 1, 20_000) else {
        return Err(BadWords);
    };
    Ok(Mode::Gen { seed, count })
}

// A number of 1 to 10 digits within a range.
fn read_number(word: &[u8], least: u32, most: u32) -> Option<u32>
    ensures some { IfSome result (SpellsNumber word.now least most) }
    ensures none { IfNone result ((number : ℕ) → ¬ SpellsNumber word.now least most number) }
{
    if word.len() > 10 {
        return None;
    }
    let number = read_natural(word)?;
    if number < least as u64 || number > most as u64 {
        return None;
    }
    Some(number as u32)
}
