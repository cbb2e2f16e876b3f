// The worked example: reads an image from standard input, and writes the frame that its sheet asks for.
#![tactic(auto)]

use settings::FRAME_LENGTH;
use std::io::Read;

fn main(rt: HostRuntime) {
    let sheet = b"deed=K-104\npins=20\nwrites=3\nat=FFC1\nat=FFC9\nat=FFD6\n";
    let taken = intake::settings_of(sheet);
    let mut image = [0u8; 4096];
    let mut strip = [0u8; 6144];
    let mut frame = [0u8; FRAME_LENGTH];
    let read = rt.reader().read_exact(&mut image);
    let answer = screen::show(taken.settings, &image, b"", &mut strip, &mut frame);
    if read.is_err() || answer.is_err() {
        let _ = eprintln!(rt; "example: the input is no image of 4096 bytes");
    } else if rt.write_all(&frame).is_err() {
        let _ = eprintln!(rt; "example: the output is not whole");
    }
}
