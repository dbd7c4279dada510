use ddp_socket::SocketNetwork;
use duct::{Link, NetFault, Network, Polled, SendFault};
use ejson_value::{Mem, Text};
use std::alloc::Global;
use std::net::{Net, TcpListener, TcpStream};
use std::random::RandomSource;
use std::test::Fail;
use std::thread;
use std::thread::Threads;
use std::time::Clock;

// How often a test polls or sends before it gives up.
pub const TURNS: u32 = 3000;

// The ports of which a test takes the first that is free.
const PORTS: u16 = 41320;

// A network that listens, and at which port.
pub fn listening<N: Network>(network: &mut N) -> Option<u16> {
    (PORTS..PORTS + 500).find(|port| network.listen(*port).is_ok())
}

// What comes of a link after all that is quiet.
pub fn next<L: Link>(link: &mut L) -> Polled {
    for _ in 0..TURNS {
        match link.poll() {
            Polled::Quiet => {}
            polled => return polled,
        }
    }
    Polled::Quiet
}

// Sends a text, as often as there is no room for it.
pub fn tell<L: Link>(link: &mut L, text: Text) -> bool {
    let mut text = text;
    for _ in 0..TURNS {
        match link.send(text) {
            Ok(()) => return true,
            Err((back, SendFault::Full)) => {
                if !matches!(link.poll(), Polled::Quiet) {
                    return false;
                }
                text = back;
            }
            Err(_) => return false,
        }
    }
    false
}

// Sends each text back until the peer closes; whether it did.
fn echoes<N: Network + Drop>(mut network: N) -> bool {
    let Ok(mut link) = network.accept() else {
        return false;
    };
    for _ in 0..TURNS {
        match next(&mut link) {
            Polled::Message(text) => {
                if !tell(&mut link, text) {
                    return false;
                }
            }
            Polled::Closed => return matches!(link.poll(), Polled::Closed),
            _ => return false,
        }
    }
    false
}

// Whether each text comes back as it was sent.
fn hears_all<L: Link>(link: &mut L, texts: &[Text]) -> bool {
    texts.iter().all(
        |text| matches!(next(link), Polled::Message(heard) if heard.as_str() == text.as_str()),
    )
}

// Sends the texts, all before the first is heard.
fn talks<N: Network + Drop>(mut network: N, port: u16, texts: &[Text]) -> Result<bool, Mem> {
    let Ok(mut link) = network.connect(port) else {
        return Ok(false);
    };
    for text in texts {
        if !tell(&mut link, text.copy()?) {
            return Ok(false);
        }
    }
    Ok(hears_all(&mut link, texts))
}

fn texts(alloc: Global, longest: u32) -> Result<Vec<Text>, Mem> {
    let mut texts = Vec::new(alloc);
    texts.push(Text::from_str(alloc, "")?)?;
    texts.push(Text::from_str(alloc, r#"{"msg":"ping"}"#)?)?;
    texts.push(Text::from_str(alloc, "z\u{df}\u{6c34}\u{1f34c}")?)?;
    // The lengths where the form of a frame's length changes.
    for length in [125, 126, 65535, 65536u32] {
        let mut text = Text::new(alloc);
        for _ in 0..length {
            text.push_str("x")?;
        }
        texts.push(text)?;
    }
    let mut long = Text::new(alloc);
    for _ in 0..longest {
        long.push_str("0123456789abcdef")?;
    }
    texts.push(long)?;
    texts.push(Text::from_str(alloc, "last")?)?;
    Ok(texts)
}

// A server's end and a client's on two threads: whether the texts came back, and whether the server heard the close.
fn two_ends<
    R: Net<Listener = TcpListener, Stream = TcpStream>
        + RandomSource
        + Clock
        + Threads
        + Copy
        + Send
        + Sync,
>(rt: R, alloc: Global, longest: u32) -> Result<bool, Mem> {
    let mut server = SocketNetwork::new(rt, alloc);
    let Some(port) = listening(&mut server) else {
        return Ok(false);
    };
    let texts = texts(alloc, longest)?;
    let sent = texts.as_slice();
    let (closed, heard) = thread::join(
        &rt,
        move || echoes(server),
        move || talks(SocketNetwork::new(rt, alloc), port, sent),
    );
    Ok(closed && heard?)
}

#[test]
fn texts_go_both_ways(rt: HostRuntime) -> Result<(), Fail> {
    // A text of 1,000,000 bytes.
    assert!(rt; two_ends(rt, rt.alloc(), 62500)?);
    // A text of 4,194,304 bytes.
    assert!(rt; two_ends(rt, rt.alloc(), 262144)?);
    Ok(())
}
