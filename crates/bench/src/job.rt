/// What the words of the command line ask for: some work, this many times.
#[derive(Clone, Copy, Debug, PartialEq, Eq)]
pub enum Job {
    Encode(u64),
    Decode(u64),
    Digest(u64),
    Segment(u64),
    Get(u64),
    GetRun(u64),
    Store(u64),
    Load(u64),
    Disk(u64),
    Server(u64),
    Hashes(u64),
    Apply(u64),
    World(u64),
}

/// The job that the words name.
pub fn job_of(words: &[String]) -> Option<Job> {
    match words {
        [word, times] => job_of_word(word.as_str(), times.parse().ok()?),
        [frames, work, times] if frames.as_str() == "frames" => {
            let times = times.parse().ok()?;
            match work.as_str() {
                "encode" => Some(Job::Encode(times)),
                "decode" => Some(Job::Decode(times)),
                _ => None,
            }
        }
        _ => None,
    }
}

// The job of one word.
fn job_of_word(word: &str, times: u64) -> Option<Job> {
    match word {
        "digest" => Some(Job::Digest(times)),
        "segment" => Some(Job::Segment(times)),
        "get" => Some(Job::Get(times)),
        "run" => Some(Job::GetRun(times)),
        "store" => Some(Job::Store(times)),
        "load" => Some(Job::Load(times)),
        "disk" => Some(Job::Disk(times)),
        "server" => Some(Job::Server(times)),
        "hashes" => Some(Job::Hashes(times)),
        "apply" => Some(Job::Apply(times)),
        "world" => Some(Job::World(times)),
        _ => None,
    }
}
