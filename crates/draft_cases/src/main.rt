// Tests of a table under way on drafts with more, as much and less room than a buffer has: each answer, each used length and a sum of the
// buffer's bytes is a line, and the lines are compared.
#![tactic(auto)]

ghost use Rattle.std.specs.Prelude.{◌≤◌, length};
ghost use Rattle.growing.specs.Growing.{room_of, Writes};

use growing::Draft;
use scope::Refusal;

fn line(rt: &impl Print, text: &[u8], n: usize) {
    let _ = rt.write_all(text);
    let _ = rt.print(n);
    let _ = rt.write_all(b"\n");
}

fn show(rt: &impl Print, answer: Result<usize, Refusal>) {
    match answer {
        Ok(l) => line(rt, b"literal ", l),
        Err(f) => {
            line(rt, b"refused ", f.number as usize);
            line(rt, b"at ", f.place);
        }
    }
}

// The bytes as one number, each weighed by its place.
fn sum(bytes: &[u8]) -> usize {
    let mut s: usize = 0;
    for b in bytes {
        s = 31 * (s % 65521) + (*b as usize);
    }
    s
}

// To a buffer with room for the nodes that there are.
fn write_nodes(nodes: &Draft, buf: &mut [u8]) -> usize
    requires { nodes.now.count ≤ room_of (length buf.old) }
    ensures { Writes nodes.now buf.old buf.new result }
{
    nodes.write(buf)
}

// To a buffer with room for as many as the draft has room for.
fn write_room(nodes: &Draft, buf: &mut [u8]) -> usize
    requires { nodes.now.room ≤ room_of (length buf.old) }
    ensures { Writes nodes.now buf.old buf.new result }
{
    nodes.write(buf)
}

// The nodes are written where there is room for them.
fn put_nodes(rt: &impl Print, nodes: &Draft, buf: &mut [u8]) {
    if nodes.count() <= growing::room_of(buf.len()) {
        let used = write_nodes(nodes, buf);
        line(rt, b"used ", used);
    }
    line(rt, b"sum ", sum(buf));
}

// Room for so many nodes, and a buffer of so many bytes.
fn chosen(rt: &impl Print, room: usize, vars: usize, len: usize) {
    let mut nodes = Draft::with_room(room.min(2016));
    show(rt, cnffold::add_points(&mut nodes, vars.min(1024)));
    show(rt, cnffold::add_true(&mut nodes));
    let mut buf = [238u8; 1100];
    put_nodes(rt, &nodes, &mut buf[..len.min(1100)]);
}

// As much room as the buffer has: what does not fit is refused, and the rest is written.
fn fitted(rt: &impl Print, vars: usize, buf: &mut [u8]) {
    let mut nodes = Draft::new(buf.len());
    show(rt, cnffold::add_points(&mut nodes, vars.min(1024)));
    let used = write_room(&nodes, buf);
    line(rt, b"used ", used);
    line(rt, b"sum ", sum(buf));
}

fn exact(rt: &impl Print, vars: usize, len: usize) {
    let mut buf = [238u8; 1100];
    fitted(rt, vars, &mut buf[..len.min(1100)]);
}

fn main(rt: HostRuntime) {
    chosen(&rt, 2016, 0, 512);
    chosen(&rt, 2016, 62, 600);
    chosen(&rt, 2016, 63, 1023);
    chosen(&rt, 2016, 63, 1100);
    chosen(&rt, 10, 9, 512);
    chosen(&rt, 10, 10, 512);
    chosen(&rt, 0, 0, 512);
    exact(&rt, 0, 511);
    exact(&rt, 63, 512);
    exact(&rt, 64, 512);
    exact(&rt, 126, 1100);
    exact(&rt, 127, 1100);
}
