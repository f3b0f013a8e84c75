// Runs cases of macro strings, a line each, and prints a line for each answer. Bytes stand in hex, `-` for none.
//
//     macro FORM CLIENT DOMAIN SENDER HELO RECEIVER SECONDS P BUFFER TEXT
//                                       `ok` and the expansion, or `refused` and the number; BUFFER is the lent buffer's length
//     form FORM TEXT                    1 if the text is a macro string of the form, else 0
//     asks-p FORM TEXT                  1 if a p macro stands in the text, else 0
//     question TEXT                     the question name of an expansion, or `malformed`
//     reversed ADDRESS                  the name that a PTR question asks for an address
//
// FORM is `domain-spec`, `modifier-value` or `explanation`. Any other line is printed as it is.
#![tactic(auto)]

use macros::{Form, Given};
use std::io;
use text::bytes::part;
use text::writing::Writer;

// The form that a word names.
fn form_of(word: &[u8]) -> Form {
    match word {
        b"domain-spec" => Form::DomainSpec,
        b"explanation" => Form::Explanation,
        _ => Form::ModifierValue,
    }
}

// Prints what an expansion answered: the length, or a refusal's number.
fn print_expanded(rt: &impl Print, answer: Result<usize, u8>, out: &[u8]) -> io::Result<()> {
    match answer {
        Ok(n) => {
            rt.write_all(b"ok ")?;
            case_support::print_bytes(rt, part(out, 0, n))?;
        }
        Err(number) => {
            rt.write_all(b"refused ")?;
            rt.print(number)?;
        }
    }
    case_support::print_line(rt, b"")
}

// The expansion into the front of a buffer; 0 if the buffer is shorter than that.
fn expand_front(line: &[u8], text: &[u8], given: &Given, out: &mut [u8]) -> Result<usize, u8> {
    let form = form_of(case_support::word(line, 1));
    let room = (case_support::number_of(case_support::word(line, 9)) % 65536) as usize;
    if out.len() < room {
        return Err(0);
    }
    macros::expand(form, text, given, &mut out[..room]).map_err(|e| e.number())
}

fn run_macro(rt: &impl Print, line: &[u8]) -> io::Result<()> {
    let mut domain = [0u8; 1024];
    let mut sender = [0u8; 1024];
    let mut helo = [0u8; 1024];
    let mut receiver = [0u8; 1024];
    let mut p = [0u8; 1024];
    let mut text = [0u8; 8192];
    let mut out = [0u8; 65536];
    let d = case_support::unhex(case_support::word(line, 3), &mut domain);
    let s = case_support::unhex(case_support::word(line, 4), &mut sender);
    let h = case_support::unhex(case_support::word(line, 5), &mut helo);
    let r = case_support::unhex(case_support::word(line, 6), &mut receiver);
    let q = case_support::unhex(case_support::word(line, 8), &mut p);
    let t = case_support::unhex(case_support::word(line, 10), &mut text);
    let given = Given {
        sender: part(&sender, 0, s),
        helo: part(&helo, 0, h),
        receiver: part(&receiver, 0, r),
        domain: part(&domain, 0, d),
        p: part(&p, 0, q),
        client: case_support::address_of(case_support::word(line, 2)),
        seconds: case_support::number_of(case_support::word(line, 7)),
    };
    let answer = expand_front(line, part(&text, 0, t), &given, &mut out);
    print_expanded(rt, answer, &out)
}

fn run_form(rt: &impl Print, line: &[u8]) -> io::Result<()> {
    let mut text = [0u8; 8192];
    let n = case_support::unhex(case_support::word(line, 2), &mut text);
    case_support::print_test(
        rt,
        macros::read_macro_string(form_of(case_support::word(line, 1)), part(&text, 0, n)),
    )
}

fn run_asks_p(rt: &impl Print, line: &[u8]) -> io::Result<()> {
    let mut text = [0u8; 8192];
    let n = case_support::unhex(case_support::word(line, 2), &mut text);
    case_support::print_test(
        rt,
        macros::uses_p(form_of(case_support::word(line, 1)), part(&text, 0, n)),
    )
}

fn run_question(rt: &impl Print, line: &[u8]) -> io::Result<()> {
    let mut text = [0u8; 8192];
    let mut out = [0u8; 253];
    let n = case_support::unhex(case_support::word(line, 1), &mut text);
    let Some(m) = macros::question_name(part(&text, 0, n), &mut out) else {
        return case_support::print_line(rt, b"malformed");
    };
    case_support::print_line(rt, part(&out, 0, m))
}

fn run_reversed(rt: &impl Print, line: &[u8]) -> io::Result<()> {
    let mut out = [0u8; 80];
    let mut w = Writer::new(&mut out);
    address_text::put_reversed_name(
        case_support::address_of(case_support::word(line, 1)),
        &mut w,
    );
    let n = w.at;
    case_support::print_line(rt, part(&out, 0, n))
}

fn run_line(rt: &impl Print, line: &[u8]) -> io::Result<()> {
    match case_support::word(line, 0) {
        b"macro" => run_macro(rt, line),
        b"form" => run_form(rt, line),
        b"asks-p" => run_asks_p(rt, line),
        b"question" => run_question(rt, line),
        b"reversed" => run_reversed(rt, line),
        _ => case_support::print_line(rt, line),
    }
}

// At most a million lines.
fn main(rt: HostRuntime) -> io::Result<()> {
    let mut input = rt.reader();
    let mut line = [0u8; 32768];
    for _ in 0..1000000 {
        let Some(n) = case_support::read_line(&mut input, &mut line)? else {
            return Ok(());
        };
        run_line(&rt, part(&line, 0, n))?;
    }
    Ok(())
}
