ghost use Rattle.std.specs.Prelude.{◌<◌, length};
ghost use Rattle.domethyme_c.specs.Answers.{IsText};

/// What a code means, with a zero behind it, where there is room for both.
#[unsafe(no_mangle)]
pub extern "C" fn domethyme_text(code: u32, text: &mut [u8]) -> usize
    ensures answer { IsText result text.old text.new }
{
    let meaning = meaning_of(code);
    let count = meaning.len();
    if text.len() <= count {
        return count + 1;
    }
    text[..count].copy_from_slice(meaning);
    text[count] = 0;
    count + 1
}

fn meaning_of(code: u32) -> &'static [u8]
    ensures { length result.now < 80 }
{
    match code {
        0 => b"ok",
        1 => b"no path leads from the source to the target",
        2 => b"the handle is closed",
        3 => b"a node isn't below the number of nodes",
        4 => b"an array is too short for the answer",
        5 => b"out of memory",
        6 => b"the route would repeat a node: the file isn't right for any graph",
        7 => b"a start or an end has a length above 2^57, or more than 2^25 arcs",
        8 => b"a limit is above 2^62 and isn't the number that means none",
        9 => b"there isn't one number for each link without a middle",
        10 => b"the numbers of the arcs of a link sum to more than 2^36",
        11 => b"the array is no set of numbers of this hierarchy",
        34 => b"the file couldn't be read",
        35 => b"the bytes are no hierarchy file",
        36 => b"the bytes end too early",
        37 => b"more than 2^25 nodes, or more links than pairs of nodes",
        38 => b"the bound is above what a walk can cost",
        39 => b"a rank isn't below the number of nodes",
        40 => b"two nodes have one rank",
        41 => b"a link's ends aren't two nodes",
        42 => b"a link doesn't come after the one before it",
        43 => b"a link's weight or number of arcs can't be",
        44 => b"a middle isn't a node",
        45 => b"a middle's rank isn't below those of both ends",
        46 => b"a half of a link with a middle is no link",
        47 => b"the halves of a link don't sum to it",
        48 => b"bytes follow the last link",
        _ => b"a code that no call returns",
    }
}
