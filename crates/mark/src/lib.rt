// Marks what self and program reach. `marks[f]` is frame f's, `marks[256 + k]` made text k's. A frame is marked when it is put into the queue:
// `order[..k]` is done, `order[k..tail]` waits, so that each frame's slots are looked at once.
#![tactic(auto)]

ghost use Rattle.std.specs.Prelude.{◌≡◌};
ghost use Rattle.heap.specs.Closed.{Closed};
ghost use Rattle.mark.specs.Mark.{mark_text, visit_frame, visit_value, visit_all, mark_roots, mark_queue, mark_all};
ghost use Rattle.mark.specs.Asks.{AtText, AtFrame, Visitable, Starts, Scans};
ghost use Rattle.mark.specs.Reached.{Exactly};

use framed::{Text, Value};

#[derive(Drop)]
pub struct Work {
    pub marks: [u8; 512],
    pub order: [u32; 256],
    pub tail: usize,
}

impl Work {
    #[tactic(auto, unfolding(crate::specs::Mark::mark_text))]
    fn mark_text(&mut self, t: Text)
        requires { AtText t }
        ensures { self.new ≡ mark_text t self.old }
    {
        if let Text::Made(k) = t {
            self.marks[256 + words::wide(k)] = 1;
        }
    }

    // Marks the frame g and puts it into the queue, where it is not marked yet.
    #[tactic(auto, unfolding(crate::specs::Mark::visit_frame))]
    fn visit_frame(&mut self, g: u32)
        requires { AtFrame self.old g }
        ensures { self.new ≡ visit_frame g self.old }
    {
        let f = words::wide(g);
        if self.marks[f] == 0 {
            self.marks[f] = 1;
            self.order[self.tail] = g;
            self.tail += 1;
        }
    }

    #[tactic(auto, unfolding(crate::specs::Mark::visit_value))]
    fn visit(&mut self, v: Value)
        requires { Visitable self.old v }
        ensures { self.new ≡ visit_value v self.old }
    {
        match v {
            Value::Text(t) => self.mark_text(t),
            Value::Frame(g) => self.visit_frame(g),
            Value::Int(_) | Value::Code(_) => {}
        }
    }

    // Visits each value of the frame g.
    fn visit_slots(&mut self, h: &[u32], g: u32)
        requires { Scans h.now g self.old }
        ensures { self.new ≡ visit_all h.now g self.old }
    {
        let n = heap::slot_count(h, g);
        for i in 0..n {
            self.visit(heap::slot_value(h, g, i));
        }
    }

    // Visits self and program.
    fn mark_roots(&mut self, h: &[u32])
        requires { Starts h.now self.old }
        ensures { self.new ≡ mark_roots h.now self.old }
    {
        self.visit(heap::self_value(h));
        self.visit(heap::program_value(h));
    }

    // Visits the values of each frame of the queue, which grows on the way.
    fn mark_queue(&mut self, h: &[u32])
        requires { Starts h.now self.old }
        ensures { self.new ≡ mark_queue h.now 256 0 self.old }
    {
        let mut k = 0;
        while k < self.tail {
            let g = self.order[k];
            self.visit_slots(h, g);
            k += 1;
        }
    }
}

// Marks what self and program reach.
pub fn mark(h: &[u32]) -> [u8; 512]
    requires { Closed h.now }
    ensures exact { result ≡ mark_all h.now }
    ensures means { Exactly h.now result }
{
    let mut work = Work {
        marks: [0; 512],
        order: [0; 256],
        tail: 0,
    };
    work.mark_roots(h);
    work.mark_queue(h);
    work.marks
}
