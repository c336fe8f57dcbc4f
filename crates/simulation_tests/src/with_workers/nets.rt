//! The values of a net, and a text so long that `simulate` refuses it before it reads a scenario.

ghost use Rattle.std.specs.Prelude.{◌<◌, length};
ghost use Rattle.mote_net.specs.Meaning.{net_of};

use net_scenario::{Net, read_scenario};
use std::alloc::{AllocError, Global};
use std::test::Fail;
use test_helpers::{PRINT_THEN_YIELD, same_text};

const THREE_MOTES: &str = "\
    version = 2\n\
    end = 7\n\
    [medium]\n\
    range = 5\n\
    base = 2\n\
    per = 10\n\
    collide = true\n\
    [programs]\n\
    p = \"process a; code a { body { } }\"\n\
    q = \"process b, c; code b { body { } } code c { body { } }\"\n\
    [queue]\n\
    q = 3\n\
    [[mote]]\n\
    x = 0\n\
    y = 0\n\
    program = \"q\"\n\
    [[mote]]\n\
    x = 3\n\
    y = 4\n\
    program = \"p\"\n\
    [[mote]]\n\
    x = -30000\n\
    y = 4\n\
    program = \"q\"\n\
    [[loss]]\n\
    from = 0\n\
    to = 1\n\
    every = 2\n";

/// Writes down, for each mote, its program, the number of its processes, and the length of its queue.
fn write_motes(text: &mut String, net: &Net) -> Result<(), AllocError> {
    for mote in 0..net.motes() {
        let name = net.program_name(mote);
        let processes = net.program(mote).processes();
        write!(text, "{name} {processes} {}|", net.queue(mote))?;
    }
    Ok(())
}

/// Writes down the motes that hear a mote, and the delay of its packets to each of them.
fn write_hearers(text: &mut String, net: &Net, sender: u16) -> Result<(), AllocError>
    requires mote_exists { sender < length (net_of net.now).motes }
{
    let medium = net.medium();
    for receiver in 0..net.motes() {
        if medium.hears(receiver, sender) {
            write!(
                text,
                "{sender} to {receiver} {}|",
                medium.delay(sender, receiver)
            )?;
        }
    }
    Ok(())
}

/// Writes down all values of a net.
fn write_net(text: &mut String, net: &Net) -> Result<(), AllocError> {
    let ahead = net.medium().lookahead(net.end());
    write!(
        text,
        "{} {} {} {ahead}|",
        net.motes(),
        net.end(),
        net.collide()
    )?;
    write_motes(text, net)?;
    for sender in 0..net.motes() {
        write_hearers(text, net, sender)?;
    }
    Ok(())
}

/// Writes down all values of a scenario's net. If the text is refused, writes down its number of bytes and the number
/// of the error.
fn write_scenario(alloc: Global, scenario: &str, text: &mut String) -> Result<(), AllocError> {
    match read_scenario(alloc, scenario) {
        Ok(net) => write_net(text, &net),
        Err(error) => write!(text, "{} {}|", scenario.len(), error.number()),
    }
}

/// Fails unless the text that is written about a scenario is `want`.
fn tells(alloc: Global, scenario: &str, want: &str) -> Result<(), Fail> {
    let mut text = String::new(alloc);
    write_scenario(alloc, scenario, &mut text)?;
    same_text(text.as_str(), want)
}

/// A comment of 1,048,577 bytes.
fn long_comment(alloc: Global) -> Result<String, AllocError> {
    let mut text = String::from_str(alloc, "\n")?;
    for _ in 0..16_384 {
        text.push_str("###############################################################\n")?;
    }
    Ok(text)
}

/// Two nets, and a text that is one byte too long. It is refused for its length, before any other error is found.
#[test]
fn values_of_nets(rt: HostRuntime) -> Result<(), Fail> {
    tells(rt.alloc(), PRINT_THEN_YIELD, "1 5 false 6|p 1 32|")?;
    tells(
        rt.alloc(),
        THREE_MOTES,
        "3 7 true 4|q 2 3|p 1 32|q 2 3|0 to 1 4|1 to 0 4|",
    )?;
    let long = long_comment(rt.alloc())?;
    tells(rt.alloc(), long.as_str(), "1048577 5|")
}
