#![tactic(auto)]

// The case program: reads a case file from standard input, relaxes each record alone, and prints a
// line for each. At most 65,536 bytes are read.
// Kept: fixed buffers, since nothing is put on the heap, and the io library's calls on them, since std's readers end at an
// error without saying how much was read.
const STDIN_FILENO: i32 = 0;

const STDOUT_FILENO: i32 = 1;

fn main() {
    let mut file = io::large_buffer();
    let len = io::read_full(STDIN_FILENO, &mut file);
    let mut out = [0; 458923];
    let count = case_file::print_cases(&file[..len], &mut out);
    io::write_all(STDOUT_FILENO, &out[..count]);
}
