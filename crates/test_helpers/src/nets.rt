//! Scenarios of a few motes.

/// One mote. Its process prints, and then yields for ever.
pub const PRINT_THEN_YIELD: &str = "\
    version = 1\n\
    end = 5\n\
    [medium]\n\
    range = 10\n\
    base = 1\n\
    per = 100\n\
    [programs]\n\
    p = \"process a; autostart a; code a { body { print 1; yield; print 2; } }\"\n\
    [[mote]]\n\
    x = 0\n\
    y = 0\n\
    program = \"p\"\n";

/// A receiver between two senders. A run has two windows: the packets are sent at 0, and arrive at 2.
pub const TWO_SENDERS: &str = "\
    version = 1\n\
    end = 9\n\
    [medium]\n\
    range = 5\n\
    base = 2\n\
    per = 100\n\
    [programs]\n\
    s = \"process a; autostart a; code a { body { send (self + 5); } }\"\n\
    r = \"process r; autostart r; receiver r; code r { body { while 1 { yield; if is(packet) { print from; \
    print data; } } } }\"\n\
    [[mote]]\n\
    x = 0\n\
    y = 0\n\
    program = \"s\"\n\
    [[mote]]\n\
    x = 5\n\
    y = 0\n\
    program = \"r\"\n\
    [[mote]]\n\
    x = 10\n\
    y = 0\n\
    program = \"s\"\n";
