ghost use Rattle.std.specs.Prelude.{◌≡◌, ◌+◌, ◌*◌, ◌<◌, ◌≤◌, ◌++◌, length, IfOk, OnOk};
ghost use Rattle.std.specs.String.{string_bytes};
ghost use Rattle.carol_syntax.specs.Limits.{most_text_bytes};
ghost use Rattle.carol_generator.specs.Generated.{generated_text, next_number, number_drawn};
ghost use Rattle.carol_generator.specs.Layout.{command_text, commands_text, head_text, session_text};

use std::alloc::{AllocError, Global};
use std::fmt::Write;

// The bank, and the head of the scene.
const HEAD: &str = "program
counter bal = 1000;
invariant bal >= 0;
guard low: here.bal <= there.bal;
op withdraw(n: 1 <= n and n <= 1000) gives 0 <= result and result <= n {
query v under low;
if n <= v.bal {
issue bal -= n;
return n;
} else {
return 0;
}
}
op deposit(n: 1 <= n and n <= 1000) gives result = n {
issue bal += n;
return n;
}
end
scene
replicas 4;
tries 4;
workers 4;
gossipers 1;
";

/// How many commands each session of the generated scene has at most.
pub const MOST_PER_SESSION: u32 = 256;

const SESSIONS: u32 = 16;

const REPLICAS: u32 = 4;

/// The text of a large input, in the canonical layout: a bank, and a scene of sixteen sessions with
/// `n` commands each, drawn one after another. It is short enough to be read.
pub fn generate(alloc: Global, n: u32) -> Result<Vec<u8>, AllocError>
    requires some { 1 ≤ n }
    requires few { n ≤ MOST_PER_SESSION }
    ensures text { IfOk result (λ text. text.items ≡ generated_text n) }
    ensures short { IfOk result (λ text. length text.items ≤ most_text_bytes) }
{
    let mut text = String::new(alloc);
    push_head(&mut text)?;
    let mut last = n;
    for session in 0..SESSIONS {
        last = push_session(&mut text, n, session, last)?;
    }
    writeln!(text, "end")?;
    Ok(text.into_bytes())
}

// Appends the bank and the head of the scene.
#[tactic(auto, unfolding(crate::specs::Layout::head_text))]
fn push_head(text: &mut String) -> Result<(), AllocError>
    ensures { OnOk result (string_bytes text.new ≡ string_bytes text.old ++ head_text) }
{
    text.push_str(HEAD)
}

// Appends a session with n commands, given the number that was drawn last, and answers the number
// that is drawn last in it.
#[tactic(auto, unfolding(crate::specs::Layout::session_text))]
fn push_session(text: &mut String, n: u32, session: u32, last: u32) -> Result<u32, AllocError>
    requires few { n ≤ MOST_PER_SESSION }
    requires session { session < 16 }
    requires last { last ≡ number_drawn n (session * n) }
    requires low { last < 65537 }
    ensures text { OnOk result
        (string_bytes text.new ≡ string_bytes text.old ++ session_text n session) }
    ensures last { IfOk result (λ x. x ≡ number_drawn n (session * n + n)) }
    ensures low { IfOk result (λ x. x < 65537) }
{
    let replica = session % REPLICAS;
    writeln!(text, "session at {replica} {{")?;
    let last = push_commands(text, n, session * n, last)?;
    writeln!(text, "}}")?;
    Ok(last)
}

// Appends n commands behind so many, given the number that was drawn last, and answers the number
// that is drawn last for them.
fn push_commands(text: &mut String, n: u32, first: u32, last: u32) -> Result<u32, AllocError>
    requires last { last ≡ number_drawn n first }
    requires low { last < 65537 }
    ensures text { OnOk result
        (string_bytes text.new ≡ string_bytes text.old ++ commands_text n first n) }
    ensures last { IfOk result (λ x. x ≡ number_drawn n (first + n)) }
    ensures low { IfOk result (λ x. x < 65537) }
{
    let mut x = last;
    for _ in 0..n {
        x = next_number(x);
        push_command(text, x)?;
    }
    Ok(x)
}

// The number that is drawn after this one.
fn next_number(x: u32) -> u32
    requires { x < 65537 }
    ensures next { result ≡ next_number x }
    ensures low { result < 65537 }
{
    (75 * x + 74) % 65537
}

// Appends the command that a number stands for.
#[tactic(auto, unfolding(crate::specs::Layout::command_text))]
fn push_command(text: &mut String, x: u32) -> Result<(), AllocError>
    ensures { OnOk result (string_bytes text.new ≡ string_bytes text.old ++ command_text x) }
{
    let amount = 1 + x % 50;
    if x % 3 == 0 {
        return writeln!(text, "deposit({amount});");
    }
    writeln!(text, "withdraw({amount});")
}
