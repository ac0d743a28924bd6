//! The top call for C, Python, R and a web page.
#![tactic(auto)]

ghost use Rattle.std.specs.Prelude.{◌≡◌, ◌≤◌, ◌⊎◌, List, ℕ, Some, None};
ghost use Rattle.mixed_graph.specs.Vocabulary.{has};
ghost use Rattle.m_separation.specs.Vocabulary.{IsSeparated, HasOpenWalk};
ghost use Rattle.dag_reader.specs.declared.graph.ReadGraph.{ReadGraph};
ghost use Rattle.prob_expr.specs.Vocabulary.{FailsSomewhere, effect_on, EqualsEffect};
ghost use Rattle.adjustment.specs.Vocabulary.{IsAdmissible, adjustment_formula};
ghost use Rattle.identify.specs.Vocabulary.{IsIdentifiable, IsNotIdentifiable};
ghost use Rattle.caller_memory.specs.Vocabulary.{AreAskable, AreEffectSets, KeepsText, IsNoGraphText, Keeps, graph_in, AreTexts, IsNoText};
ghost use Rattle.span_call.specs.Called.{Called};
ghost use Rattle.span_call.specs.Vocabulary.{LacksInput, IsEnd, HasKept, TellsInputs, AskForNothing};

use caller_memory::kept::{
    Adjustment, Identification, KeepFault, KeptDiagram, ReadDiagram, Separation,
};
use caller_memory::spans::{Input, Span};
use mixed_graph::VSet;
use span_call::kept::ask_kept;
use span_call::{Arguments, Sizes, Wanted, run_spans, show, wanted_spans};
use std::alloc::Global;

/// Runs the words over the inputs, which are parts of `bytes`, shows what was written, and gives the status.
#[unsafe(no_mangle)]
pub extern "C" fn causal_run(
    alloc: Global,
    bytes: &[u8],
    words: &[Span],
    inputs: &[Input],
    out: &mut [u8],
    err: &mut [u8],
    sizes: &mut Sizes,
) -> u8
    // 9: a word is no text. Below that each is. From 9 on nothing is written.
    ensures end { IsEnd bytes.now words.now out.old out.new err.old err.new sizes.new result }
    ensures known { result ≤ 10 }

    // 6: an input that the words name isn't there. 7 doesn't come.
    ensures called { result ≤ 8 → Called None bytes.now words.now inputs.now out.old out.new err.old err.new sizes.new result }
    ensures lacked { result ≡ 6 → LacksInput None bytes.now words.now inputs.now }
    ensures never_cut_short { result ≡ 7 → ⊥ }
{
    let arguments = Arguments {
        bytes,
        words,
        inputs,
    };
    let end = run_spans(alloc, &arguments, out, err);
    *sizes = end.sizes;
    end.status
}

/// Tells which inputs the words may ask for, shows their names one behind the other, and gives the status: 0; 2 where the words aren't
/// understood; 8 where memory was refused; 9 where a word is no text; 10 where there is no memory for the words.
#[unsafe(no_mangle)]
pub extern "C" fn causal_inputs(
    alloc: Global,
    bytes: &[u8],
    words: &[Span],
    names: &mut [u8],
    wanted: &mut Wanted,
) -> u8
    ensures told { result ≡ 0 → TellsInputs bytes.now words.now names.old names.new wanted.new }
    ensures nothing { result ≡ 2 → AskForNothing bytes.now words.now }
    ensures not_text { result ≡ 9 → IsNoText bytes.now words.now }
    ensures are_texts { result ≤ 8 → AreTexts bytes.now words.now }
    ensures known { (result ≡ 0) ⊎ ((result ≡ 2) ⊎ ((result ≡ 8) ⊎ ((result ≡ 9) ⊎ (result ≡ 10)))) }
    ensures stays { 2 ≤ result → names.new ≡ names.old }
    ensures none { 2 ≤ result → wanted.new ≡ record { count = 0; file = 0; second = 0; most = 0 } }
{
    let end = wanted_spans(alloc, bytes, words, names);
    *wanted = end.wanted;
    end.status
}

/// Keeps the diagram of a graph text, and shows its names: 0; 3 where the bytes are no graph text; 8 where memory was refused. What was
/// kept stays then.
#[unsafe(no_mangle)]
pub extern "C" fn causal_keep(
    alloc: Global,
    text: &[u8],
    kept: &mut KeptDiagram,
    names: &mut [u8],
    size: &mut usize,
) -> u8
    ensures kept { result ≡ 0 → HasKept text.now kept.new names.old names.new size.new }
    ensures refused { result ≡ 3 → IsNoGraphText text.now }
    ensures known { (result ≡ 0) ⊎ ((result ≡ 3) ⊎ (result ≡ 8)) }
    ensures stays { 3 ≤ result → kept.new ≡ kept.old }
    ensures names_stay { 3 ≤ result → names.new ≡ names.old }
    ensures no_size { 3 ≤ result → size.new ≡ 0 }
{
    *size = 0;
    match KeptDiagram::read(alloc, text) {
        Ok(read) => {
            let ReadDiagram { diagram, lines } = read;
            *kept = diagram;
            *size = show(&lines, names);
            0
        }
        Err(fault) => status_of(fault),
    }
}

/// The status of a text that isn't kept.
fn status_of(fault: KeepFault) -> u8
    ensures refused { result ≡ 3 → fault ≡ KeepFault.Refused }
    ensures known { (result ≡ 3) ⊎ (result ≡ 8) }
{
    match fault {
        KeepFault::Refused => 3,
        KeepFault::NoMemory => 8,
    }
}

/// Whether x and y are separated given a set in a diagram that is kept: 0 or 1; 3 where that can't be asked of these sets.
#[unsafe(no_mangle)]
pub extern "C" fn causal_separated(kept: &KeptDiagram, x: u64, y: u64, given: u64) -> u8
    ensures apart { result ≡ 0 → IsSeparated (graph_in kept.now.observed) (has x) (has y) (has given) }
    ensures open { result ≡ 1 → HasOpenWalk (graph_in kept.now.observed) (has x) (has y) (has given) }
    ensures askable { result ≤ 1 → AreAskable kept.now.observed.vertices x y given }
    ensures refused { result ≡ 3 → AreAskable kept.now.observed.vertices x y given → ⊥ }
    ensures known { (result ≤ 1) ⊎ (result ≡ 3) }
{
    let (x, y, given) = (VSet::of_bits(x), VSet::of_bits(y), VSet::of_bits(given));
    match kept.observed.separation(x, y, given) {
        Separation::Separated => 0,
        Separation::Open => 1,
        Separation::Refused => 3,
    }
}

/// Whether the effect of x on y has a formula without interventions, in a diagram that is kept: 0 or 1; 3 where that can't be asked of these sets.
#[unsafe(no_mangle)]
pub extern "C" fn causal_is_identifiable(kept: &KeptDiagram, x: u64, y: u64) -> u8
    ensures yes { result ≡ 0 → IsIdentifiable (graph_in kept.now.observed) x y }
    ensures no { result ≡ 1 → IsNotIdentifiable (graph_in kept.now.observed) x y }
    ensures askable { result ≤ 1 → AreEffectSets kept.now.observed.vertices x y }
    ensures refused { result ≡ 3 → AreEffectSets kept.now.observed.vertices x y → ⊥ }
    ensures known { (result ≤ 1) ⊎ (result ≡ 3) }
{
    let (x, y) = (VSet::of_bits(x), VSet::of_bits(y));
    match kept.observed.identification(x, y) {
        Identification::Identifiable => 0,
        Identification::NotIdentifiable => 1,
        Identification::Refused => 3,
    }
}

/// Whether a set is admissible for the effect of x on y, in a diagram that is kept: 0 or 1; 3 where that can't be asked of these sets.
#[unsafe(no_mangle)]
pub extern "C" fn causal_is_admissible(kept: &KeptDiagram, x: u64, y: u64, set: u64) -> u8
    ensures yes { result ≡ 0 → IsAdmissible (graph_in kept.now.observed) (has x) (has y) (has set) }
    ensures effect { result ≡ 0 → EqualsEffect (graph_in kept.now.observed) (effect_on x y) (adjustment_formula x y set) }
    ensures no { result ≡ 1 → FailsSomewhere (graph_in kept.now.observed) (effect_on x y) (adjustment_formula x y set) }
    ensures askable { result ≤ 1 → AreAskable kept.now.observed.vertices x y set }
    ensures refused { result ≡ 3 → AreAskable kept.now.observed.vertices x y set → ⊥ }
    ensures known { (result ≤ 1) ⊎ (result ≡ 3) }
{
    let (x, y, set) = (VSet::of_bits(x), VSet::of_bits(y), VSet::of_bits(set));
    match kept.observed.adjustment(x, y, set) {
        Adjustment::Admissible => 0,
        Adjustment::NotAdmissible => 1,
        Adjustment::Refused => 3,
    }
}

/// Runs the words on a diagram that is kept, which stands for their file, shows what was written, and gives the status.
#[unsafe(no_mangle)]
pub extern "C" fn causal_ask(
    alloc: Global,
    kept: &KeptDiagram,
    names: &[u8],
    bytes: &[u8],
    words: &[Span],
    inputs: &[Input],
    out: &mut [u8],
    err: &mut [u8],
    sizes: &mut Sizes,
) -> u8
    // 9: a word is no text. 11: no diagram with these names is kept. Below 9 each word is a text. From 9 on nothing is written.
    ensures end { IsEnd bytes.now words.now out.old out.new err.old err.new sizes.new result }

    // Answered as a run whose file the text stands for. 6: the second input that the words name isn't there. 7 doesn't come.
    ensures called { result ≤ 8 → (text : List ℕ) → KeepsText text kept.now names.now
        → Called (Some text) bytes.now words.now inputs.now out.old out.new err.old err.new sizes.new result }
    ensures lacked { result ≡ 6 → (text : List ℕ) → KeepsText text kept.now names.now → LacksInput (Some text) bytes.now words.now inputs.now }
    ensures never_cut_short { result ≡ 7 → (text : List ℕ) → KeepsText text kept.now names.now → ⊥ }
    ensures kept { result ≤ 7 → (g : ReadGraph) × Keeps kept.now names.now g }
    ensures not_kept { result ≡ 11 → (g : ReadGraph) → Keeps kept.now names.now g → ⊥ }
    ensures known { result ≤ 11 }
{
    let arguments = Arguments {
        bytes,
        words,
        inputs,
    };
    let end = ask_kept(alloc, kept, names, &arguments, out, err);
    *sizes = end.sizes;
    end.status
}
