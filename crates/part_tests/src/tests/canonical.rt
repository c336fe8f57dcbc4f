//! Canonical texts, written by hand.

use super::PRINT_THEN_YIELD;
use mote_program::{print_program, read};
use std::alloc::Global;
use std::test::Fail;
use test_helpers::same_text;

/// The canonical text of the program that a text describes.
fn canonical(alloc: Global, text: &str) -> Result<String, Fail> {
    let program = read(alloc, text)?;
    Ok(print_program(alloc, &program)?)
}

/// Fails unless `want` is the canonical text of the program of `text`.
fn has_canonical(alloc: Global, text: &str, want: &str) -> Result<(), Fail> {
    let printed = canonical(alloc, text)?;
    same_text(printed.as_str(), want)
}

/// Fails unless `want` is the canonical text of the program of `text`, and also of the program of `want` itself.
fn prints(alloc: Global, text: &str, want: &str) -> Result<(), Fail> {
    has_canonical(alloc, text, want)?;
    has_canonical(alloc, want, want)
}

const PRINT_THEN_YIELD_PRINTED: &str = "process a;
autostart a;
code a {
  body {
    print 1;
    yield;
    print 2;
  }
}
";

const DECLARATIONS_AND_EMPTY_PARTS: &str =
    "event e;event f;semaphore s=3;process a,b;autostart b,a;receiver b;
        code a{var x=1;var y=65535;etimer t;ctimer c{}thread h{}onpoll{}onexit{print 0;}body{}}
        code b{body{}}";

const DECLARATIONS_AND_EMPTY_PARTS_PRINTED: &str = "event e;
event f;
semaphore s = 3;
process a, b;
autostart b, a;
receiver b;
code a {
  var x = 1;
  var y = 65535;
  etimer t;
  ctimer c {
  }
  thread h {
  }
  onpoll {
  }
  onexit {
    print 0;
  }
  body {
  }
}
code b {
  body {
  }
}
";

const STATEMENTS: &str =
    "event e;semaphore s=0;process a;code a{var x=0;etimer t;thread h{restart;}body{
        x=1;send x;wait_until 1;wait_while 0;yield;yield_until x;spawn h;exit;pause;acquire s;signal s;
        post a e x into x;post a exit 0;broadcast msg x into x;broadcast com 1;synch a packet 2;poll a;
        start a;kill a;set t 5;reset t;restart_timer t;stop t;}}";

const STATEMENTS_PRINTED: &str = "event e;
semaphore s = 0;
process a;
code a {
  var x = 0;
  etimer t;
  thread h {
    restart;
  }
  body {
    x = 1;
    send x;
    wait_until 1;
    wait_while 0;
    yield;
    yield_until x;
    spawn h;
    exit;
    pause;
    acquire s;
    signal s;
    post a e x into x;
    post a exit 0;
    broadcast msg x into x;
    broadcast com 1;
    synch a packet 2;
    poll a;
    start a;
    kill a;
    set t 5;
    reset t;
    restart_timer t;
    stop t;
  }
}
";

const BRANCHES_AND_EXPRESSIONS: &str = "semaphore s=0;process a;code a{var x=0;etimer t;body{
        if x{}else{if(x==1){print !x;}}while((x+1)<(2*!!from)){}
        print(is(continue)||(is(init)&&is(exit)));print((fired(t)!=expired(t))>=gone(a));
        print((running(a)<=count(s))>(now-(self/(data%7))));}}";

const BRANCHES_AND_EXPRESSIONS_PRINTED: &str = "semaphore s = 0;
process a;
code a {
  var x = 0;
  etimer t;
  body {
    if x {
    } else {
      if (x == 1) {
        print !x;
      }
    }
    while ((x + 1) < (2 * !!from)) {
    }
    print (is(continue) || (is(init) && is(exit)));
    print ((fired(t) != expired(t)) >= gone(a));
    print ((running(a) <= count(s)) > (now - (self / (data % 7))));
  }
}
";

/// Texts of programs, each with its canonical text.
static CASES: [(&str, &str); 4] = [
    (PRINT_THEN_YIELD, PRINT_THEN_YIELD_PRINTED),
    (
        DECLARATIONS_AND_EMPTY_PARTS,
        DECLARATIONS_AND_EMPTY_PARTS_PRINTED,
    ),
    (STATEMENTS, STATEMENTS_PRINTED),
    (BRANCHES_AND_EXPRESSIONS, BRANCHES_AND_EXPRESSIONS_PRINTED),
];

#[test]
fn canonical_texts(rt: HostRuntime) -> Result<(), Fail> {
    for (text, want) in CASES.as_slice() {
        prints(rt.alloc(), text, want)?;
    }
    Ok(())
}
