ghost use Rattle.std.specs.Prelude.{◌≤◌, length};
ghost use Rattle.carol_syntax.specs.Limits.{most_text_bytes};

use carol_generator::generate;
use carol_parse::{parse, print};
use std::alloc::{AllocError, Global};
use std::test::Fail;

// The canonical text of what a text is read as.
fn printed(alloc: Global, text: &str) -> Result<Vec<u8>, AllocError>
    requires { length text.now ≤ most_text_bytes }
{
    match parse(alloc, text.as_bytes()) {
        Ok(file) => print(alloc, &file),
        Err(_) => Ok(Vec::new(alloc)),
    }
}

// A formula as it may be written, and as it is printed.
const FORMULAS: [(&str, &str); 15] = [
    ("true and false or not true", "true and false or not true"),
    ("true or false and true", "true or false and true"),
    ("true or false or a<1", "true or false or a < 1"),
    ("true and false and a>1", "true and false and a > 1"),
    ("true and(false and true)", "true and (false and true)"),
    ("true or(false or true)", "true or (false or true)"),
    ("(true or a!=b)and true", "(true or a != b) and true"),
    ("not true and false", "not true and false"),
    ("not(true and false)", "not (true and false)"),
    ("not not 1<=a", "not not 1 <= a"),
    ("((a>=1))", "a >= 1"),
    ("-2*a+b=-3", "-2*a + b = -3"),
    (
        "1-3*q.s.m<-result+size(s)",
        "1 - 3*q.s.m < -result + size(s)",
    ),
    ("here.r.x-there.a=0", "here.r.x - there.a = 0"),
    (
        "size(here.q.s)+5*size(there.s)=0",
        "size(here.q.s) + 5*size(there.s) = 0",
    ),
];

#[test]
fn prints_formulas(rt: HostRuntime) -> Result<(), Fail> {
    for (formula, canonical) in &FORMULAS {
        let text = format!(in rt.alloc(); "program invariant {formula};end")?;
        let wanted = format!(in rt.alloc(); "program\ninvariant {canonical};\nend\n")?;
        assert!(rt; text.len() < 1000);
        let found = printed(rt.alloc(), text.as_str())?;
        assert!(rt; found.as_slice() == wanted.as_bytes(), "at {formula}");
    }
    Ok(())
}

#[test]
fn parts_of_a_file(rt: HostRuntime) -> Result<(), Fail> {
    let table = [
        (
            "program set s{a,b};record r{peak x=-1;flag y=1;} counter c=05;end",
            "",
        ),
        (
            "program set s{a,b};record r{peak x=-1;flag y=1;} invariant true;end",
            "program\nset s { a, b };\nrecord r { peak x = -1; flag y = 1; }\ninvariant true;\nend\n",
        ),
        (
            "program invariant true; op f(n:true,m:true)gives true{let x=-n;release;return x;}end",
            "program\ninvariant true;\nop f(n: true, m: true) gives true {\nlet x = -n;\nrelease;\nreturn x;\n}\nend\n",
        ),
        (
            "program invariant true; end scene replicas 1;tries 2;workers 3;gossipers 0;session at 0{f(-1,2)times 3;f()times 1;}end script go 0;gossip 0 1;cut 1 0;join 0 1;end",
            "program\ninvariant true;\nend\nscene\nreplicas 1;\ntries 2;\nworkers 3;\ngossipers 0;\nsession at 0 {\nf(-1, 2) times 3;\nf();\n}\nend\nscript\ngo 0;\ngossip 0 1;\ncut 1 0;\njoin 0 1;\nend\n",
        ),
    ];
    for (text, canonical) in table {
        assert!(rt; text.len() < 1000);
        let found = printed(rt.alloc(), text)?;
        assert!(rt; found.as_slice() == canonical.as_bytes(), "at {text}");
    }
    Ok(())
}

// The file with one command in each session.
const ONE_EACH: &[u8] = b"program
counter bal = 1000;
invariant bal >= 0;
guard low: here.bal <= there.bal;
op withdraw(n: 1 <= n and n <= 1000) gives 0 <= result and result <= n {
query v under low;
if n <= v.bal {
issue bal -= n;
return n;
} else {
return 0;
}
}
op deposit(n: 1 <= n and n <= 1000) gives result = n {
issue bal += n;
return n;
}
end
scene
replicas 4;
tries 4;
workers 4;
gossipers 1;
session at 0 {
withdraw(50);
}
session at 1 {
withdraw(50);
}
session at 2 {
withdraw(6);
}
session at 3 {
withdraw(45);
}
session at 0 {
deposit(34);
}
session at 1 {
deposit(20);
}
session at 2 {
deposit(14);
}
session at 3 {
withdraw(40);
}
session at 0 {
withdraw(23);
}
session at 1 {
withdraw(2);
}
session at 2 {
withdraw(43);
}
session at 3 {
withdraw(37);
}
session at 0 {
withdraw(33);
}
session at 1 {
withdraw(7);
}
session at 2 {
withdraw(29);
}
session at 3 {
deposit(45);
}
end
";

#[test]
fn one_command_each(rt: HostRuntime) -> Result<(), Fail> {
    let text = generate(rt.alloc(), 1)?;
    assert_eq!(rt; text.as_slice(), ONE_EACH);
    assert!(rt; text.len() < 10_000);
    let known = std::str::from_utf8(&text)?;
    let again = printed(rt.alloc(), known)?;
    assert_eq!(rt; again.as_slice(), ONE_EACH);
    Ok(())
}
