// The walk over the values of one assignment, from the place of its own line.
#![tactic(auto)]

ghost use Rattle.std.specs.Prelude.{◌≡◌, false, not, cond, ◌+◌, ◌≤◌, ◌<◌, length, drop, get_or};
ghost use Rattle.kernel_rules.specs.Lines.{is_gap, part, span, kernel_lines, begin_data, is_marker};
ghost use Rattle.kernel_rules.specs.Tokens.{tokens_of};
ghost use Rattle.kernel_rules.specs.Assignments.{is_plus, tokens_of_lines, values_in};
ghost use Rattle.kernel_walk.specs.Places.{is_between, line_here, values_from, values_with, values_here, Within};

// A value by its places in the text, and where those after it begin: behind it on its line, which ends at `end`, and on the lines from `next` on.
#[derive(Clone, Copy)]
pub struct Value {
    pub found: bool,
    pub from: usize,
    pub to: usize,
    pub end: usize,
    pub next: usize,
}

// The first value of the assignment whose own line begins at `at`.
pub fn first_value(text: &[u8], at: usize) -> Value
    requires { at < length text.now }
    ensures result_value { values_with text.now result ≡ values_here text.now at }
    ensures within { Within text.now at result }
{
    let line = kernel_lines::line_within(text, at);
    let end = line.end;
    let i = kernel_heads::value_at(&text[at..end]);
    if end - at <= i {
        return no_value(end);
    }
    given_value(text, at + i, end, line.next)
}

// What is given from a place on: a list, or one value.
fn given_value(text: &[u8], from: usize, end: usize, next: usize) -> Value
    requires from_lt_end { (from < end) × (end ≤ next) × (next ≤ length text.now) }
    requires from_value { is_gap (get_or text.now from 0) ≡ false }
    ensures result_value { values_with text.now result ≡ values_in (tokens_of (part text.now from end)) (tokens_of_lines (kernel_lines (drop next text.now))) }
    ensures within { Within text.now from result }
{
    if text[from] == b'(' {
        return next_value(text, from + 1, end, next);
    }
    let to = from + kernel_tokens::width_at(&text[from..end], 0);
    Value {
        found: true,
        from,
        to,
        end: to,
        next: text.len(),
    }
}

// The next value of a list, from the place `at` of a line that ends at `end` on, and on the lines from `next` on.
pub fn next_value(text: &[u8], at: usize, end: usize, next: usize) -> Value
    requires { (at ≤ end) × (end ≤ next) × (next ≤ length text.now) }
    ensures result_value { values_with text.now result ≡ values_from text.now at end next }
    ensures within { Within text.now at result }
{
    let mut from = after_between(text, at, end);
    let mut stop = end;
    let mut more = next;
    while stop <= from {
        if text.len() <= more {
            return no_value(stop);
        }
        let line = kernel_lines::line_within(text, more);
        stop = line.end;
        from = after_between(text, tokens_start(text, more, stop), stop);
        more = line.next;
    }
    value_here(text, from, stop, more)
}

// The value that stands here, none at the list's end.
fn value_here(text: &[u8], from: usize, end: usize, next: usize) -> Value
    requires from_lt_end { (from < end) × (end ≤ next) × (next ≤ length text.now) }
    requires from_value { is_between (get_or text.now from 0) ≡ false }
    ensures result_value { values_with text.now result ≡ values_from text.now from end next }
    ensures within { Within text.now from result }
{
    if text[from] == b')' {
        return no_value(end);
    }
    let to = from + kernel_tokens::width_at(&text[from..end], 0);
    Value {
        found: true,
        from,
        to,
        end,
        next,
    }
}

fn no_value(at: usize) -> Value
    ensures { result ≡ record { found = false; from = at; to = at; end = at; next = at } }
{
    Value {
        found: false,
        from: at,
        to: at,
        end: at,
        next: at,
    }
}

// Whether the operator is `=` and not `+=`.
pub fn is_plain(text: &[u8], at: usize) -> bool
    requires { at < length text.now }
    ensures { result ≡ not (is_plus (line_here text.now at)) }
{
    let line = kernel_lines::line_within(text, at);
    let end = line.end;
    !kernel_heads::is_plus(&text[at..end])
}

// Where the tokens of a list's line begin: a \begindata line has none.
fn tokens_start(text: &[u8], start: usize, end: usize) -> usize
    requires { (start ≤ end) × (end ≤ length text.now) }
    ensures value { result ≡ cond (is_marker begin_data (part text.now start end)) end start }
    ensures lower_bound { (start ≤ result) × (result ≤ end) }
{
    if kernel_assignments::is_marker(b"\\begindata", &text[start..end]) {
        return end;
    }
    start
}

// The place after what stands between two values.
fn after_between(text: &[u8], at: usize, end: usize) -> usize
    requires { (at ≤ end) × (end ≤ length text.now) }
    ensures value { result ≡ at + span is_between (part text.now at end) }
    ensures lower_bound { (at ≤ result) × (result ≤ end) }
{
    let mut i = at;
    while i < end {
        if !is_between(text[i]) {
            return i;
        }
        i += 1;
    }
    i
}

fn is_between(b: u8) -> bool
    ensures { result ≡ is_between b }
{
    if kernel_lines::line_bytes::is_gap(b) {
        return true;
    }
    b == b','
}
